//! The manual page, in roff.
use crate::filling::{NOTHING, Section};
use crate::output::Output;
use byte_streams::Fault;
use command_line::{Parsed, parse_words, paths_of};
use std::alloc::Global;

/// The manual page, in roff. It bears the day of the release, as the change log has it: a page does
/// not change from build to build.
pub(crate) static SECTIONS: &[Section<'_>] = &[
    Section {
        program: "==> citymerge.1
.TH CITYMERGE 1 \"2026-11-24\" \"~version~\" \"User Commands\"
.SH NAME
citymerge \\- ~purpose~
.SH SYNOPSIS
",
        command: "~usage~",
        ..NOTHING
    },
    Section {
        program: ".SH DESCRIPTION\n~help of all~",
        command: ".SH CITYMERGE ~command~\n~help of command~",
        ..NOTHING
    },
    Section {
        program: END,
        ..NOTHING
    },
];

const END: &str = ".SH EXIT STATUS
~status~.SH DIAGNOSTICS
A bad value of an option is told by one of these lines, with status 2:
~bad type~~bad box~.PP
A refusal is told by one of these texts, with status 1:
.PP
.nf
~faults~.fi
.PP
FAULTS.md tells when each comes, and what to do about it.
.SH FILES
Below the folder of the installation, as /usr or /usr/local:
.TP
share/doc/citymerge/GUIDE.md
From a publisher\\(aqs tiles to one stream, or to a part of it.
.TP
share/doc/citymerge/FAULTS.md
All texts of refusals, with what to do about each.
.SH SEE ALSO
.BR citymerge\\-many (1),
which merges any number of tiles.
";

/// What stands for characters that roff would take for something else.
static ESCAPES: &[(char, &str)] = &[('\\', r"\e"), ('-', r"\-"), ('\'', r"\(aq"), ('`', r"\(ga")];

/// Which part of a help text is wanted.
#[derive(Clone, Copy)]
enum Part {
    Usage,
    /// All before the statuses.
    Help,
    Status,
}

/// Adds what stands for a place of the page, which for some is of a command, or the text itself.
pub(crate) fn add_told(out: &mut Output, place: &str, command: &str) {
    match place {
        "version" => add_version(out),
        "usage" => add_said(out, &["citymerge", "help", command], Part::Usage),
        "help of command" => add_said(out, &["citymerge", "help", command], Part::Help),
        "help of all" => add_said(out, &["citymerge", "--help"], Part::Help),
        "status" => add_said(out, &["citymerge", "--help"], Part::Status),
        "bad type" => add_said(out, &["citymerge", "filter", "--cotype="], Part::Help),
        "bad box" => add_said(out, &["citymerge", "filter", "--bbox="], Part::Help),
        "faults" => add_faults(out),
        text => out.add(text),
    }
}

fn add_version(out: &mut Output) {
    match said_to(out.alloc, &["citymerge", "--version"]) {
        Some(said) => out.add(said.trim_end()),
        None => out.fail(),
    }
}

/// Adds a part of what the program says to these words, line for line.
fn add_said(out: &mut Output, words: &[&str], part: Part) {
    match said_to(out.alloc, words) {
        Some(said) => add_block(out, part_of(&said, part)),
        None => out.fail(),
    }
}

fn add_block(out: &mut Output, text: &str) {
    out.add(".PP\n.in 2n\n.nf\n");
    for line in text.lines() {
        add_line(out, line);
    }
    out.add(".fi\n.in\n");
}

/// Adds a line as it stands.
fn add_line(out: &mut Output, line: &str) {
    out.add("\\&");
    out.add_escaped(line, ESCAPES);
    out.add("\n");
}

fn add_faults(out: &mut Output) {
    for fault in (1..=u8::MAX).filter_map(Fault::of) {
        if is_answered(fault) {
            add_line(out, fault.text());
        }
    }
}

/// Whether a command can be refused with this fault.
fn is_answered(fault: Fault) -> bool {
    !matches!(fault, Fault::HeaderNotEmpty | Fault::Handoff)
}

/// What the program says to these words: help, or what is wrong with them.
fn said_to(alloc: Global, words: &[&str]) -> Option<String> {
    let words = paths_of(alloc, words).ok()?;
    match parse_words(alloc, &words) {
        Parsed::Help(text) | Parsed::Usage(text) => String::from_utf8(text.into_vec()).ok(),
        _ => None,
    }
}

fn part_of(said: &str, part: Part) -> &str {
    let (help, status) = said.split_once("Status:\n").unwrap_or((said, ""));
    match part {
        Part::Usage => help
            .lines()
            .find_map(|line| line.strip_prefix("Usage: "))
            .unwrap_or(""),
        Part::Help => help,
        Part::Status => status,
    }
}
