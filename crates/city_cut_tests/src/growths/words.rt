//! What the words of a command line ask for.

use byte_streams::Fault;
use city_feature::Choice;
use city_json::Str;
use command_line::{Parsed, Paths, parse_words};
use growth_support::{Call, expect, refused};
use std::alloc::Global;
use std::io::Eprint;

/// What words may ask for here, in short.
#[derive(Clone, Copy)]
enum Asked<'a> {
    /// A filter: of how many types, from which x, and whether these are left out.
    Filter(usize, Option<i64>, bool),
    /// A merge of so many tiles.
    Merge(usize),
    Cat,
    /// Wrong words, of which this is said in front.
    Usage(&'a str),
}

/// The words of the program, as `parse_words` takes them.
fn words_of(alloc: Global, words: &str) -> Result<Paths, Fault> {
    let mut given = Paths::new(alloc);
    for word in words.split(' ') {
        given.push(Str::read(alloc, word)?)?;
    }
    Ok(given)
}

fn is_filter(choice: &Choice, count: usize, from: Option<i64>, exclude: bool) -> bool {
    let types = choice.types.as_ref().map_or(0, |types| types.items().len());
    let least = choice.area.as_ref().map(|area| area.min_x);
    types == count && least == from && choice.exclude == exclude
}

fn is_asked(parsed: &Parsed, asked: Asked<'_>) -> bool {
    match (parsed, asked) {
        (Parsed::Filter(choice), Asked::Filter(count, from, exclude)) => {
            is_filter(choice, count, from, exclude)
        }
        (Parsed::Merge(args), Asked::Merge(count)) => args.paths.items().len() == count,
        (Parsed::Cat, Asked::Cat) => true,
        (Parsed::Usage(text), Asked::Usage(front)) => text.items().starts_with(front.as_bytes()),
        _ => false,
    }
}

/// Words are answered as they are with ample memory, or there is not enough to tell.
fn is_answered(
    rt: &(impl AllocGlobal + Eprint),
    parsed: &Parsed,
    asked: Asked<'_>,
) -> Result<bool, Fault> {
    match parsed {
        Parsed::Memory => refused(rt, Call("parse_words"), Fault::Memory),
        parsed => Ok(is_asked(parsed, asked)),
    }
}

fn words_ask(
    rt: &(impl AllocGlobal + Eprint),
    words: &str,
    asked: Asked<'_>,
) -> Result<bool, Fault> {
    let given = words_of(rt.alloc(), words)?;
    is_answered(rt, &parse_words(rt.alloc(), &given), asked)
}

/// Words, and what they ask for.
const WORDS: [(&str, Asked<'static>); 8] = [
    (
        "citymerge filter --exclude --bbox=-5,0,10,10 --cotype=Building,Bridge",
        Asked::Filter(2, Some(-5), true),
    ),
    ("citymerge filter", Asked::Filter(0, None, false)),
    ("citymerge merge --in-turn a b", Asked::Merge(2)),
    ("citymerge cat", Asked::Cat),
    ("citymerge merge", Asked::Usage("error: ")),
    (
        "citymerge filter --bbox=1,2,3",
        Asked::Usage("citymerge: bad --bbox\n"),
    ),
    (
        "citymerge filter --bbox=5,0,1,1",
        Asked::Usage("citymerge: bad --bbox\n"),
    ),
    (
        "citymerge filter --cotype=A,,B",
        Asked::Usage("citymerge: bad --cotype\n"),
    ),
];

#[test]
fn words_are_answered(rt: HostRuntime) -> Result<(), Fault> {
    for (words, asked) in WORDS.iter() {
        expect!(rt; words_ask(&rt, words, *asked));
    }
    Ok(())
}
