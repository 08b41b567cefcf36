//! What words ask for, and what is to be answered.
use byte_streams::{Fault, Line};
use city_feature::{Area, Choice, Types};
use city_json::Str;
use command_line::{MergeArgs, Parsed, Paths, parse_words};
use std::alloc::{AllocError, Global};

/// Words, with `|` between them, and what is to be answered.
pub(crate) type Row = (&'static str, &'static str);

/// What the words after the program's name ask for.
fn parsed(alloc: Global, words: &str) -> Result<Parsed, Fault> {
    let mut given = Paths::new(alloc);
    given.push(Str::read(alloc, "citymerge")?)?;
    for word in words.split('|') {
        given.push(Str::read(alloc, word)?)?;
    }
    Ok(parse_words(alloc, &given))
}

fn add_types(text: &mut String, types: &Types) -> Result<(), AllocError> {
    for name in types.items() {
        text.push('<')?;
        text.push_str(name.as_str())?;
        text.push('>')?;
    }
    Ok(())
}

fn add_area(text: &mut String, area: &Area) -> Result<(), AllocError> {
    write!(
        text,
        " from {} {} to {} {}",
        area.min_x, area.min_y, area.max_x, area.max_y
    )
}

fn add_choice(text: &mut String, choice: &Choice) -> Result<(), AllocError> {
    match &choice.types {
        Some(types) => add_types(text, types)?,
        None => text.push_str("all types")?,
    }
    match &choice.area {
        Some(area) => add_area(text, area)?,
        None => text.push_str(" anywhere")?,
    }
    text.push_str(if choice.exclude { " excluded" } else { "" })
}

fn add_merge(text: &mut String, args: &MergeArgs) -> Result<(), AllocError> {
    add_choice(text, &args.choice)?;
    text.push_str(if args.in_turn { " in turn" } else { "" })?;
    text.push_str(if args.least { " from the least" } else { "" })?;
    for path in args.paths.items() {
        text.push_str(" [")?;
        text.push_str(path.as_str())?;
        text.push(']')?;
    }
    Ok(())
}

fn add_asked(text: &mut String, asked: &Parsed) -> Result<(), AllocError> {
    match asked {
        Parsed::Filter(choice) => add_choice(text, choice),
        Parsed::Merge(args) => add_merge(text, args),
        Parsed::Cat => text.push_str("cat"),
        _ => text.push_str("nothing"),
    }
}

/// What the words ask for, as a text: the choice, and of a merge its flags and its paths, too.
fn asked(alloc: Global, words: &str) -> Result<String, Fault> {
    let mut text = String::new(alloc);
    add_asked(&mut text, &parsed(alloc, words)?)?;
    Ok(text)
}

/// Whether the words ask for this.
pub(crate) fn asks(alloc: Global, words: &str, wanted: &str) -> bool {
    match asked(alloc, words) {
        Ok(text) => text.as_str() == wanted,
        Err(_) => false,
    }
}

fn help_of(alloc: Global, words: &str) -> Option<Line> {
    match parsed(alloc, words) {
        Ok(Parsed::Help(text)) => Some(text),
        _ => None,
    }
}

fn usage_of(alloc: Global, words: &str) -> Option<Line> {
    match parsed(alloc, words) {
        Ok(Parsed::Usage(text)) => Some(text),
        _ => None,
    }
}

/// Whether the words are a wrong use, of which this is said.
pub(crate) fn is_wrong_use(alloc: Global, words: &str, wanted: &str) -> bool {
    match usage_of(alloc, words) {
        Some(said) => said.items() == wanted.as_bytes(),
        None => false,
    }
}

fn names(text: &[u8], named: &str) -> bool {
    match str::from_utf8(text) {
        Ok(text) => text.contains(named) && text.ends_with('\n') && !text.contains("bad --"),
        Err(_) => false,
    }
}

/// Whether the words are refused by `clap`, with a text that ends its line and names what is wrong.
pub(crate) fn is_refused(alloc: Global, words: &str, named: &str) -> bool {
    match usage_of(alloc, words) {
        Some(said) => names(said.items(), named),
        None => false,
    }
}

fn has_parts(text: &[u8], parts: &[&str]) -> bool {
    let Ok(text) = str::from_utf8(text) else {
        return false;
    };
    let mut all = text.ends_with('\n');
    for part in parts {
        all = all && text.contains(*part);
    }
    all
}

/// Whether the words ask for a help that has these parts.
pub(crate) fn helps(alloc: Global, words: &str, parts: &[&str]) -> bool {
    match help_of(alloc, words) {
        Some(said) => has_parts(said.items(), parts),
        None => false,
    }
}

/// Whether the words ask for this text.
pub(crate) fn says(alloc: Global, words: &str, wanted: &[u8]) -> bool {
    match help_of(alloc, words) {
        Some(said) => said.items() == wanted,
        None => false,
    }
}

pub(crate) fn help_is_the_same(alloc: Global, words: &str, others: &str) -> bool {
    match help_of(alloc, others) {
        Some(said) => says(alloc, words, said.items()),
        None => false,
    }
}

/// The text, and then ten thousand times the other one.
pub(crate) fn many(alloc: Global, first: &str, other: &str) -> Result<String, AllocError> {
    let mut text = String::from_str(alloc, first)?;
    for _ in 0..10_000u32 {
        text.push_str(other)?;
    }
    Ok(text)
}
