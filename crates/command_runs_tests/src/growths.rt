//! The program's calls where memory is refused, as the tests `growths` of `city_cut_tests` are run by `tools/growths.sh`: the runs are
//! right, or want memory and say so; what tells a fault takes none.

use crate::failing::{Command, Given, run};
use crate::texts::{
    A1_A2, A1_B1_A2, B1_CUT, BLANKS, BUILDING, CHILDLESS, COMPACT, DOCUMENT, HEADER, SPACED,
};
use byte_streams::{Bin, Fault, Line, MergeFault, write_all};
use city_feature::Choice;
use command_line::{Parsed, Paths, paths_of};
use command_runs::{
    SystemFiles, buffered, open_tiles, parse_args, report_fault, show_help, show_usage,
};
use growth_support::{Call, expect, give, refused, take};
use std::alloc::{AllocError, Global};
use std::io::{self, Eprint, ErrorKind};
use std::process::Abort;
use std::sync::Wait;
use std::thread::Threads;

fn call_of(command: Command) -> Call {
    match command {
        Command::Cat => Call("run_cat"),
        Command::Filter => Call("run_filter"),
        Command::InTurn => Call("run_merge, in turn"),
        Command::Threads => Call("run_merge, with threads"),
    }
}

/// A run is done and silent, or refused with this line; or it wants memory, and says so.
fn is_told(
    rt: &(impl AllocGlobal + Eprint),
    command: Command,
    status: u8,
    errors: &[u8],
    said: &str,
) -> Result<bool, Fault> {
    let is_wanted = errors.ends_with(b": there is not enough memory\n")
        || errors.ends_with(b": a thread could not be started\n");
    if is_wanted && status == 1 && errors.starts_with(b"citymerge: ") {
        return refused(rt, call_of(command), Fault::Memory);
    }
    Ok(errors == said.as_bytes() && (status == 0) == said.is_empty())
}

/// Whether this is the stream, of which with threads only the header and the length are known.
fn is_whole(command: Command, written: &[u8], stream: &[u8]) -> bool {
    match command {
        Command::Threads => {
            written.starts_with(HEADER.as_bytes()) && written.len() == stream.len()
        }
        _ => written == stream,
    }
}

/// Whether this may be all where memory is wanted: of a document nothing, of one tile some first lines, of several the
/// header and others.
fn is_begun(command: Command, written: &[u8], stream: &[u8]) -> bool {
    if written.is_empty() {
        return true;
    }
    match command {
        Command::Cat => false,
        Command::Filter => written.ends_with(b"\n") && stream.starts_with(written),
        Command::InTurn | Command::Threads => written.starts_with(HEADER.as_bytes()),
    }
}

/// What a run writes and says is right, or it wants memory.
fn comes<H>(
    rt: &H,
    given: &Given<'_>,
    output: &mut Bin,
    errors: &mut Bin,
    stream: &str,
    said: &str,
) -> Result<bool, Fault>
where
    H: Abort + AllocGlobal + Eprint + Threads + Wait + Copy + Send + 'static,
{
    let command = given.command;
    let status = run(rt, given, output, errors)?;
    match is_told(rt, command, status, errors.bytes(), said) {
        Ok(is_told) => Ok(is_told && is_whole(command, output.bytes(), stream.as_bytes())),
        Err(_) if !is_begun(command, output.bytes(), stream.as_bytes()) => Ok(false),
        wanted => wanted,
    }
}

fn is_right<H>(rt: &H, given: &Given<'_>, stream: &str, said: &str) -> Result<bool, Fault>
where
    H: Abort + AllocGlobal + Eprint + Threads + Wait + Copy + Send + 'static,
{
    let mut output = Bin::new(rt.alloc(), 4096, 100, false)?;
    let mut errors = Bin::new(rt.alloc(), 256, 100, false)?;
    comes(rt, given, &mut output, &mut errors, stream, said)
}

const NO_HEADER: &str = "citymerge: tile 1: the stream has no header line\n";

const NO_CHILD: &str = "citymerge: tile 1: a child is missing\n";

const CUT_SHORT: &str = "citymerge: tile 2 line 3: the line is not a JSON text\n";

/// A run, the tiles that it reads, and what it writes and says.
type Row = (
    Command,
    &'static str,
    &'static str,
    &'static str,
    &'static str,
);

const RUNS: [Row; 6] = [
    (Command::Filter, "", SPACED, COMPACT, ""),
    (Command::Filter, "", BLANKS, "", NO_HEADER),
    (Command::Cat, "", DOCUMENT, BUILDING, ""),
    (Command::Cat, "", CHILDLESS, "", NO_CHILD),
    (Command::InTurn, A1_A2, B1_CUT, A1_B1_A2, CUT_SHORT),
    (Command::Threads, A1_A2, B1_CUT, A1_B1_A2, CUT_SHORT),
];

/// Whether a run is right whose tiles give so many bytes at a read.
fn is_right_by<H>(rt: &H, row: &Row, step: usize) -> Result<bool, Fault>
where
    H: Abort + AllocGlobal + Eprint + Threads + Wait + Copy + Send + 'static,
{
    let (command, first, last, stream, said) = *row;
    let given = Given {
        command,
        first,
        last,
        step,
        fails: false,
    };
    is_right(rt, &given, stream, said)
}

#[test]
fn runs_are_right(rt: HostRuntime) -> Result<(), Fault> {
    for row in RUNS.iter() {
        expect!(rt; is_right_by(&rt, row, 50));
    }
    Ok(())
}

#[test]
fn runs_on_whole_lines_are_right(rt: HostRuntime) -> Result<(), Fault> {
    for row in RUNS.iter() {
        expect!(rt; is_right_by(&rt, row, 4096));
    }
    Ok(())
}

const WORDS: [&str; 3] = [
    "citymerge",
    "filter",
    "--cotype=Building,A longer name of a type",
];

fn words_of(alloc: Global) -> Result<Vec<String>, AllocError> {
    let mut words = Vec::new(alloc);
    for word in WORDS.iter() {
        words.push(String::from_str(alloc, word)?)?;
    }
    Ok(words)
}

fn has_two_types(choice: &Choice) -> bool {
    match &choice.types {
        Some(types) => types.items().len() == 2,
        None => false,
    }
}

/// The words of the program, or that there is no memory for them.
fn asks_for_two_types(rt: &(impl AllocGlobal + Eprint), parsed: &Parsed) -> Result<bool, Fault> {
    match parsed {
        Parsed::Filter(choice) => Ok(has_two_types(choice)),
        Parsed::Memory => refused(rt, Call("parse_args"), Fault::Memory),
        _ => Ok(false),
    }
}

fn words_are_gathered(rt: &(impl AllocGlobal + Eprint)) -> Result<bool, Fault> {
    let words = words_of(rt.alloc())?;
    asks_for_two_types(rt, &parse_args(rt.alloc(), Ok(words.into_iter())))
}

fn is_usage(rt: &(impl AllocGlobal + Eprint), parsed: &Parsed) -> Result<bool, Fault> {
    match parsed {
        Parsed::Usage(text) => {
            Ok(text.items() == b"citymerge: a word is not UTF-8\n".as_slice())
        }
        Parsed::Memory => refused(
            rt,
            Call("parse_args, words that are not UTF-8"),
            Fault::Memory,
        ),
        _ => Ok(false),
    }
}

fn words_that_cannot_be_had_are_wrong_use(rt: &(impl AllocGlobal + Eprint)) -> Result<bool, Fault> {
    let refused = io::Error::from(ErrorKind::InvalidData);
    is_usage(rt, &parse_args(rt.alloc(), Err(refused)))
}

fn output_has_its_room(rt: &(impl AllocGlobal + Eprint)) -> Result<bool, Fault> {
    match buffered(rt.alloc(), Vec::new(rt.alloc())) {
        Ok(mut output) => Ok(write_all(&mut output, b"all of it") == Ok(())),
        Err(fault) if fault == Fault::Memory => refused(rt, Call("buffered"), Fault::Memory),
        Err(_) => Ok(false),
    }
}

fn are_opened(
    rt: &(impl AllocGlobal + Eprint),
    files: &SystemFiles,
    paths: &Paths,
) -> Result<bool, Fault> {
    match open_tiles(rt.alloc(), files, paths) {
        Ok(readers) => Ok(readers.len() == 2),
        Err(told) if told == MergeFault::of_no_line(Fault::Memory) => {
            refused(rt, Call("open_tiles"), Fault::Memory)
        }
        Err(_) => Ok(false),
    }
}

fn tiles_are_opened(rt: HostRuntime) -> Result<bool, Fault> {
    let paths = paths_of(rt.alloc(), &["/dev/null", "/dev/null"])?;
    are_opened(&rt, &SystemFiles::new(rt), &paths)
}

#[test]
fn words_outputs_and_tiles(rt: HostRuntime) -> Result<(), Fault> {
    expect!(rt; words_are_gathered(&rt));
    expect!(rt; words_that_cannot_be_had_are_wrong_use(&rt));
    expect!(rt; output_has_its_room(&rt));
    expect!(rt; tiles_are_opened(rt));
    Ok(())
}

fn is_said(text: &Line, errors: &mut Bin) -> bool {
    let fault = MergeFault {
        tile: 2,
        line: 3,
        fault: Fault::Memory,
    };
    let said = b"citymerge: tile 2 line 3: there is not enough memory\nhelp\nhelp\n";
    report_fault(&fault, errors) == 1
        && show_help(text, errors) == 0
        && show_usage(text, errors) == 2
        && errors.bytes() == said.as_slice()
}

#[test]
fn what_is_said_takes_no_memory(rt: HostRuntime) -> Result<(), Fault> {
    let text = Line::from_vec(b"help\n".to_vec(rt.alloc())?);
    let mut errors = Bin::new(rt.alloc(), 256, 7, false)?;
    let gone = take(rt.alloc());
    let is_said = is_said(&text, &mut errors);
    assert!(rt; give(rt.alloc(), gone) && is_said);
    Ok(())
}

fn are_too_many(alloc: Global, files: &SystemFiles, paths: &Paths) -> bool {
    match open_tiles(alloc, files, paths) {
        Ok(_) => false,
        Err(told) => told == MergeFault::of_no_line(Fault::TooManyTiles),
    }
}

#[test]
fn too_many_tiles_take_no_memory(rt: HostRuntime) -> Result<(), Fault> {
    let paths = paths_of(rt.alloc(), &["/dev/null"; 65])?;
    let files = SystemFiles::new(rt);
    let gone = take(rt.alloc());
    let are_refused = are_too_many(rt.alloc(), &files, &paths);
    assert!(rt; give(rt.alloc(), gone) && are_refused);
    Ok(())
}
