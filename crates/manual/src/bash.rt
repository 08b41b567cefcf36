//! The completions for bash.
use crate::filling::{NOTHING, Section};

/// The completions for bash. It takes `--cotype=A` for three words, since `=` parts words.
pub(crate) static SECTIONS: &[Section<'_>] = &[
    Section {
        program: START,
        command: " ~command~",
        ..NOTHING
    },
    Section {
        program: "' ;;\n    2:help) words='",
        command: "~command~ ",
        ..NOTHING
    },
    Section {
        program: "' ;;\n",
        command: "    *:~command~) words='--help",
        flag: " --~option~",
        valued: " --~option~=",
        types: " --~option~=",
        files: "' files=yes ;;\n",
        no_files: "' files= ;;\n",
    },
    Section {
        program: END,
        ..NOTHING
    },
];

/// What finds out whether the word stands after an option with a value, or after `<` or `>`, offers
/// types after those that are there, and begins to offer the commands.
const START: &str = r#"==> citymerge.bash
_citymerge() {
    local word=${COMP_WORDS[COMP_CWORD]} before=${COMP_WORDS[COMP_CWORD-1]}
    local words= files= option= listed= redirected=
    if [[ $word == '=' ]]; then
        option=$before word=
    elif [[ $before == '=' && $COMP_CWORD -gt 2 ]]; then
        option=${COMP_WORDS[COMP_CWORD-2]}
    elif [[ $before == --@(cotype|bbox) ]]; then
        option=$before
    elif [[ $word == *[\<\>] ]]; then
        redirected=yes word=
    elif [[ $before == *[\<\>] ]]; then
        redirected=yes
    fi
    if [[ $option == --cotype ]]; then
        [[ $word != *,* ]] || listed=${word%,*},
        words=' ~types~'
        mapfile -t COMPREPLY < <(compgen -P "$listed" -W "$words" -- "${word#"$listed"}")
        compopt -o nospace
    fi
    [[ -z $option ]] || return 0
    case $COMP_CWORD:${COMP_WORDS[1]} in
    1:*) words='help --help --version"#;

const END: &str = r#"    esac
    [[ $redirected ]] && words= files=yes
    [[ " ${COMP_WORDS[*]:2:COMP_CWORD-2} " == *' -- '* ]] && words=
    mapfile -t COMPREPLY < <(compgen -W "$words" -- "$word")
    if [[ $files && ( -z $words || $word != -* ) ]]; then
        mapfile -t COMPREPLY < <(compgen -f -- "$word")
        compopt -o filenames
    fi
    if [[ ${COMPREPLY[0]-} == *= ]]; then
        compopt -o nospace
    fi
}
complete -F _citymerge citymerge
"#;
