//! The completions for zsh.
use crate::filling::{NOTHING, Section};

/// What stands for characters of a help text between single quotes.
pub(crate) static ESCAPES: &[(char, &str)] = &[
    ('\n', " "),
    ('\'', r"'\''"),
    ('\\', r"\\"),
    (':', r"\:"),
    ('[', r"\["),
    (']', r"\]"),
];

/// The completions for zsh.
pub(crate) static SECTIONS: &[Section<'_>] = &[
    Section {
        program: "==> _citymerge\n#compdef citymerge\nlocal -a commands=(\n",
        command: "    '~command~:~help~'\n",
        ..NOTHING
    },
    Section {
        program: AFTER_COMMANDS,
        command: "~command~)\n    shift words\n    (( CURRENT-- ))\n    _arguments \\\n",
        flag: "        '--~option~[~help~]' \\\n",
        valued: "        '--~option~=[~help~]:value:' \\\n",
        types: "        '--~option~=[~help~]:value:_values -s , type ~types~' \\\n",
        files: "        '*:file:_files' \\\n        '--help[Print help]' ;;\n",
        no_files: "        '--help[Print help]' ;;\n",
    },
    Section {
        program: "esac\n",
        ..NOTHING
    },
];

const AFTER_COMMANDS: &str = "    'help:Print help'
)
if (( CURRENT == 2 )); then
    _describe command commands
    _arguments '--help[Print help]' '--version[Print version]'
    return
fi
case $words[2] in
help)
    (( CURRENT == 3 )) && _describe command commands ;;
";
