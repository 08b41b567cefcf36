//! What the manual page and the completions tell of: the program, its commands, their options.
use clap::{Arg, ArgAction, Command};
use command_line::citymerge_command;
use std::alloc::{AllocError, Global};

/// What an entry tells of.
#[derive(Clone, Copy)]
pub(crate) enum EntryKind {
    /// The whole program, which comes first.
    Program,
    Command,
    Flag,
    /// An option with a value.
    Valued,
    /// The option whose value is types of city objects.
    Types,
    /// The end of a command that takes files.
    Files,
    /// The end of a command that takes none.
    NoFiles,
}

/// The program, a command, or one of its options, which come after it.
#[derive(Clone, Copy)]
pub(crate) struct Entry<'a> {
    pub(crate) kind: EntryKind,
    pub(crate) command: &'a str,
    pub(crate) option: &'a str,
    pub(crate) help: &'a str,
}

/// All that the program's command line has, in its order.
pub(crate) fn entries<'a>(alloc: Global) -> Result<Vec<Entry<'a>>, AllocError> {
    let program = citymerge_command(alloc)?;
    entries_of(alloc, &program)
}

fn entries_of<'a>(alloc: Global, program: &Command<'a>) -> Result<Vec<Entry<'a>>, AllocError> {
    let mut entries = Vec::new(alloc);
    entries.push(Entry {
        kind: EntryKind::Program,
        command: program.get_name(),
        option: "",
        help: sentence(program.get_about()),
    })?;
    for command in program.get_subcommands() {
        add_command(&mut entries, command)?;
    }
    Ok(entries)
}

fn add_command<'a>(entries: &mut Vec<Entry<'a>>, command: &Command<'a>) -> Result<(), AllocError> {
    let mut entry = Entry {
        kind: EntryKind::Command,
        command: command.get_name(),
        option: "",
        help: sentence(command.get_about()),
    };
    entries.push(entry)?;
    entry.kind = EntryKind::NoFiles;
    for arg in command.get_arguments() {
        if arg.is_positional() {
            entry.kind = EntryKind::Files;
        } else {
            entries.push(entry_of(entry.command, arg))?;
        }
    }
    entries.push(entry)?;
    Ok(())
}

fn entry_of<'a>(command: &'a str, option: &Arg<'a>) -> Entry<'a> {
    Entry {
        kind: kind_of(option),
        command,
        option: option.get_long().unwrap_or(""),
        help: sentence(option.get_help()),
    }
}

fn kind_of(option: &Arg<'_>) -> EntryKind {
    match option.get_action() {
        ArgAction::Set if option.get_id() == "cotype" => EntryKind::Types,
        ArgAction::Set | ArgAction::Append => EntryKind::Valued,
        _ => EntryKind::Flag,
    }
}

/// The first sentence of a help text, without its full stop.
fn sentence<'a>(help: Option<&'a str>) -> &'a str {
    let help = help.unwrap_or("");
    help.split_once('.').map_or(help, |(sentence, _)| sentence)
}
