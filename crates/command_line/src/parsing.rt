//! What the words of a command line ask for.
ghost use Rattle.std.specs.Prelude.{◌≡◌, [], IfErr, IfOk, string_bytes};
ghost use Rattle.clap.specs.Words.{kind_of, subcommand_rows_of};
ghost use Rattle.command_line.specs.Answered.{IsAnswered, RefusesNamed};
ghost use Rattle.command_line.specs.Asked.{HasTiles, IsAsked};
ghost use Rattle.command_line.specs.Commands.{faults_of, named_by};
ghost use Rattle.command_line.specs.Matches.{AnswersKind, IsNamed, IsRequest};

use crate::choosing::choice_given;
use crate::commands::citymerge_command;
use crate::merge_args::{MergeArgs, merge_given};
use crate::refusal::Refusal;
use byte_streams::{Line, Sequence};
use city_feature::Choice;
use city_json::Str;
use clap::error::ErrorKind;
use clap::{ArgMatches, Error};
use std::alloc::{AllocError, Global};

/// Words of a command line, or paths among them.
pub type Paths = Sequence<Str>;

/// What the words of a command line ask for.
#[derive(Debug, Drop)]
pub enum Parsed {
    /// To merge tiles.
    Merge(MergeArgs),
    /// To filter a stream by this choice.
    Filter(Choice),
    /// To make a stream of a document.
    Cat,
    /// A text for standard output: help, or the version.
    Help(Line),
    /// A text for standard error: the words are wrong.
    Usage(Line),
    /// There is not enough memory to tell.
    Memory,
}

/// What the words ask for, the program's name first.
///
/// `filter` takes `--cotype=TYPE,TYPE`, `--bbox=MINX,MINY,MAXX,MAXY` in grid units and `--exclude`.
/// `merge` takes these, `--in-turn`, `--least` and one path or more, of which `-` is a name as any
/// other. `cat` takes nothing. A value that begins with `-` is given with `=`, such a path after `--`.
/// `--help`, `-h`, `help` and `--version` are answered with [`Parsed::Help`]. All other words are
/// answered with [`Parsed::Usage`]: what `clap` says of them, or a line for a bad `--cotype` and else
/// for a bad `--bbox`.
pub fn parse_words(alloc: Global, words: &Paths) -> Parsed
    ensures asked { IsAsked (named_by words.now) result }
    ensures answered { IsAnswered (faults_of words.now) (named_by words.now) result }
    ensures tiles { HasTiles result }
{
    match answer(alloc, words.items()) {
        Ok(parsed) => parsed,
        Err(_) => Parsed::Memory,
    }
}

fn answer(alloc: Global, words: &[Str]) -> Result<Parsed, AllocError>
    ensures asked { IfOk result (IsAsked (named_by words.now)) }
    ensures answered { IfOk result (IsAnswered (faults_of words.now) (named_by words.now)) }
    ensures tiles { IfOk result HasTiles }
{
    let command = citymerge_command(alloc)?;
    match command.try_get_matches_from(words) {
        Ok(matches) => answer_matches(alloc, &matches),
        Err(error) => answer_error(alloc, &error),
    }
}

/// The answer to words that `clap` takes.
fn answer_matches(alloc: Global, matches: &ArgMatches<'_>) -> Result<Parsed, AllocError>
    requires { IsNamed (subcommand_rows_of matches.now) }
    ensures asked { IfOk result (IsAsked (subcommand_rows_of matches.now)) }
    ensures answered { IfOk result (IsAnswered [] (subcommand_rows_of matches.now)) }
    ensures tiles { IfOk result HasTiles }
{
    match asked(alloc, matches) {
        Ok(parsed) => Ok(parsed),
        Err(refusal) => match refusal.text() {
            Some(text) => Ok(Parsed::Usage(line_of(text.to_string(alloc)?))),
            None => Ok(Parsed::Memory),
        },
    }
}

/// What the command that the words name is asked.
fn asked(alloc: Global, matches: &ArgMatches<'_>) -> Result<Parsed, Refusal>
    requires { IsNamed (subcommand_rows_of matches.now) }
    ensures ok { IfOk result (IsRequest (subcommand_rows_of matches.now)) }
    ensures tiles { IfOk result HasTiles }
    ensures err { IfErr result (λ refusal. RefusesNamed refusal (subcommand_rows_of matches.now)) }
{
    if let Some(merge) = matches.subcommand_matches("merge") {
        return Ok(Parsed::Merge(merge_given(alloc, merge)?));
    }
    if let Some(filter) = matches.subcommand_matches("filter") {
        return Ok(Parsed::Filter(choice_given(alloc, filter)?));
    }
    if matches.subcommand_matches("cat").is_some() {
        return Ok(Parsed::Cat);
    }
    unreachable!()
}

/// The answer to words that `clap` does not take, or answers itself.
fn answer_error(alloc: Global, error: &Error) -> Result<Parsed, AllocError>
    ensures kind { IfOk result (AnswersKind (kind_of error.now)) }
    ensures tiles { IfOk result HasTiles }
{
    match error.kind() {
        ErrorKind::OutOfMemory => Ok(Parsed::Memory),
        ErrorKind::DisplayHelp | ErrorKind::DisplayVersion => {
            Ok(Parsed::Help(line_of(error.to_string(alloc)?)))
        }
        _ => Ok(Parsed::Usage(line_of(error.to_string(alloc)?))),
    }
}

fn line_of(text: String) -> Line
    ensures { result ≡ string_bytes text }
{
    Line::from_vec(text.into_bytes())
}
