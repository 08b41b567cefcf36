//! The words of `filter`.
use crate::answers::{Row, asks, is_refused, is_wrong_use, many};
use std::alloc::{AllocError, Global};

/// Options stand in any order and spelling.
static CHOICES: &[Row] = &[
    ("filter", "all types anywhere"),
    ("filter|--bbox=10,10,20,20", "all types from 10 10 to 20 20"),
    ("filter|--bbox=-5,0,10,10", "all types from -5 0 to 10 10"),
    (
        "filter|--exclude|--bbox=10,10,20,20",
        "all types from 10 10 to 20 20 excluded",
    ),
    ("filter|--exclude", "all types anywhere excluded"),
    ("filter|--cotype=Building", "<Building> anywhere"),
    (
        "filter|--exclude|--cotype=Building",
        "<Building> anywhere excluded",
    ),
    (
        "filter|--cotype=Bridge|--bbox=10,10,20,20",
        "<Bridge> from 10 10 to 20 20",
    ),
    (
        "filter|--bbox|1,2,3,4|--exclude|--cotype|Road,Bridge,+Ä x",
        "<Road><Bridge><+Ä x> from 1 2 to 3 4 excluded",
    ),
    (
        "filter|--cotype=a=b,-c,--exclude|--",
        "<a=b><-c><--exclude> anywhere",
    ),
    (
        "filter|--cotype|filter|--exclude",
        "<filter> anywhere excluded",
    ),
];

#[test]
fn each_option_chooses(rt: HostRuntime) {
    for (words, wanted) in CHOICES {
        assert!(rt; asks(rt.alloc(), words, wanted));
    }
}

/// The names `T` and `Type1` to `Type9999`, each after one text and before another.
fn many_types(alloc: Global, front: &str, back: &str) -> Result<String, AllocError> {
    let mut text = format!(in alloc; "{front}T{back}")?;
    for number in 1..10_000 {
        text.push_str(&format!(in alloc; "{front}Type{number}{back}")?)?;
    }
    Ok(text)
}

fn many_types_are_taken(alloc: Global) -> Result<bool, AllocError> {
    let refused = format!(in alloc; "filter|--cotype={}", many_types(alloc, "", ",")?)?;
    let wanted = format!(in alloc; "{} anywhere", many_types(alloc, "<", ">")?)?;
    let taken = refused.strip_suffix(',').unwrap_or("");
    Ok(asks(alloc, taken, &wanted) && is_wrong_use(alloc, &refused, "citymerge: bad --cotype\n"))
}

#[test]
fn a_list_of_10_000_types_is_taken(rt: HostRuntime) {
    assert!(rt; many_types_are_taken(rt.alloc()) == Ok(true));
}

/// Bad values are named, types first.
static WRONG: &[Row] = &[
    ("filter|--cotype=A,,B", "citymerge: bad --cotype\n"),
    (
        "filter|--bbox=1,2,3|--exclude|--cotype=A,,B",
        "citymerge: bad --cotype\n",
    ),
    ("filter|--cotype=", "citymerge: bad --cotype\n"),
    (
        "filter|--bbox=1,2,3|--exclude|--cotype=",
        "citymerge: bad --cotype\n",
    ),
    ("filter|--cotype=,", "citymerge: bad --cotype\n"),
    (
        "filter|--bbox=1,2,3|--exclude|--cotype=,",
        "citymerge: bad --cotype\n",
    ),
    ("filter|--cotype=A,", "citymerge: bad --cotype\n"),
    (
        "filter|--bbox=1,2,3|--exclude|--cotype=A,",
        "citymerge: bad --cotype\n",
    ),
    ("filter|--cotype=,A", "citymerge: bad --cotype\n"),
    (
        "filter|--bbox=1,2,3|--exclude|--cotype=,A",
        "citymerge: bad --cotype\n",
    ),
    ("filter|--bbox=1,2,3", "citymerge: bad --bbox\n"),
    (
        "filter|--bbox=1,2,3|--cotype=A,B",
        "citymerge: bad --bbox\n",
    ),
    ("filter|--bbox=5,0,1,1", "citymerge: bad --bbox\n"),
    (
        "filter|--bbox=5,0,1,1|--cotype=A,B",
        "citymerge: bad --bbox\n",
    ),
    ("filter|--bbox=0,5,1,1", "citymerge: bad --bbox\n"),
    (
        "filter|--bbox=0,5,1,1|--cotype=A,B",
        "citymerge: bad --bbox\n",
    ),
    ("filter|--bbox=", "citymerge: bad --bbox\n"),
    ("filter|--bbox=|--cotype=A,B", "citymerge: bad --bbox\n"),
    ("filter|--bbox=a", "citymerge: bad --bbox\n"),
    ("filter|--bbox=a|--cotype=A,B", "citymerge: bad --bbox\n"),
    ("filter|--bbox=1,2,3,4,5", "citymerge: bad --bbox\n"),
    (
        "filter|--bbox=1,2,3,4,5|--cotype=A,B",
        "citymerge: bad --bbox\n",
    ),
    ("filter|--bbox=1,2,3,", "citymerge: bad --bbox\n"),
    (
        "filter|--bbox=1,2,3,|--cotype=A,B",
        "citymerge: bad --bbox\n",
    ),
    ("filter|--bbox=+1,2,3,4", "citymerge: bad --bbox\n"),
    (
        "filter|--bbox=+1,2,3,4|--cotype=A,B",
        "citymerge: bad --bbox\n",
    ),
    (
        "filter|--bbox=9007199254740992,0,9007199254740992,1",
        "citymerge: bad --bbox\n",
    ),
    (
        "filter|--bbox=9007199254740992,0,9007199254740992,1|--cotype=A,B",
        "citymerge: bad --bbox\n",
    ),
];

#[test]
fn bad_values_are_named_types_first(rt: HostRuntime) {
    for (words, wanted) in WRONG {
        assert!(rt; is_wrong_use(rt.alloc(), words, wanted));
    }
}

/// Words that are no use of any command, and what their refusal names.
static REFUSED: &[Row] = &[
    ("", "Usage"),
    ("collect", "'collect'"),
    ("Filter", "'Filter'"),
    ("--exclude|filter", "'--exclude'"),
    ("--|filter", "Usage"),
    ("help|nope", "'nope'"),
    ("filter|--in-turn", "'--in-turn'"),
    ("filter|--cotyp=A", "'--cotyp'"),
    ("filter|-e", "'-e'"),
    ("filter|--version", "'--version'"),
    ("filter|a.city.jsonl", "'a.city.jsonl'"),
    ("filter|--|a.city.jsonl", "'a.city.jsonl'"),
    ("filter|--|--exclude", "'--exclude'"),
    ("filter|-", "'-'"),
    ("filter|", "''"),
    ("filter|--exclude|--exclude", "'--exclude'"),
    ("filter|--cotype=A|--cotype=A", "'--cotype"),
    ("filter|--bbox=1,2,3|--bbox=1,2,3,4", "'--bbox"),
    ("filter|--exclude=true", "'--exclude'"),
    ("filter|--cotype", "'--cotype"),
    ("filter|--bbox|--exclude", "'--bbox"),
    ("filter|--bbox|-5,0,10,10", "'-5'"),
];

#[test]
fn words_that_are_no_use_are_refused(rt: HostRuntime) {
    for (words, named) in REFUSED {
        assert!(rt; is_refused(rt.alloc(), words, named));
    }
}

fn many_are_refused(alloc: Global, word: &str, named: &str) -> bool {
    match many(alloc, "filter", word) {
        Ok(words) => is_refused(alloc, &words, named),
        Err(_) => false,
    }
}

#[test]
fn ten_thousand_words_are_read(rt: HostRuntime) {
    assert!(rt; many_are_refused(rt.alloc(), "|a.city.jsonl", "'a.city.jsonl'"));
    assert!(rt; many_are_refused(rt.alloc(), "|--exclude", "'--exclude'"));
}
