//! The completions for fish.
use crate::filling::Section;

/// What stands for characters of a help text between single quotes.
pub(crate) static ESCAPES: &[(char, &str)] = &[('\n', " "), ('\'', r"\'"), ('\\', r"\\")];

/// An option of a command, or its files.
macro_rules! within_command {
    ($text:literal) => {
        concat!(
            "complete -c citymerge -n '__fish_seen_subcommand_from ~command~; and not __fish_seen_subcommand_from help'",
            $text,
            "\n"
        )
    };
}

/// The completions for fish.
pub(crate) static SECTIONS: &[Section<'_>] = &[Section {
    program: "==> citymerge.fish
complete -c citymerge -f
complete -c citymerge -l help -d 'Print help'
complete -c citymerge -n __fish_use_subcommand -l version -d 'Print version'
complete -c citymerge -n __fish_use_subcommand -a help -d 'Print help'
",
    command: "complete -c citymerge -n __fish_use_subcommand -a ~command~ -d '~help~'
complete -c citymerge -n '__fish_seen_subcommand_from help; and test (count (commandline -opc)) = 2' -a ~command~ -d '~help~'
",
    flag: within_command!(" -l ~option~ -d '~help~'"),
    valued: within_command!(" -l ~option~ -x -d '~help~'"),
    types: within_command!(" -l ~option~ -x -a '(__fish_append , ~types~)' -d '~help~'"),
    files: within_command!(" -F"),
    no_files: "",
}];
