//! The words of `merge`.
use crate::answers::{Row, asks, is_refused, is_wrong_use, many};
use std::alloc::{AllocError, Global};

/// Tiles stay in their order.
static MERGES: &[Row] = &[
    ("merge|a", "all types anywhere [a]"),
    ("merge|c|a|b|a", "all types anywhere [c] [a] [b] [a]"),
    ("merge|--in-turn|a|b", "all types anywhere in turn [a] [b]"),
    (
        "merge|--cotype=A,B|a|--bbox=-5,0,10,10|-|--least|--exclude|merge|--in-turn|--|-b|--least",
        "<A><B> from -5 0 to 10 10 excluded in turn from the least [a] [-] [merge] [-b] [--least]",
    ),
];

#[test]
fn merge_takes_tiles_in_order(rt: HostRuntime) {
    for (words, wanted) in MERGES {
        assert!(rt; asks(rt.alloc(), words, wanted));
    }
}

fn many_tiles_are_taken(alloc: Global) -> Result<bool, AllocError> {
    let words = many(alloc, "merge", "|a.city.jsonl")?;
    let wanted = many(alloc, "all types anywhere", " [a.city.jsonl]")?;
    Ok(asks(alloc, &words, &wanted))
}

#[test]
fn ten_thousand_tiles_are_taken(rt: HostRuntime) {
    assert!(rt; many_tiles_are_taken(rt.alloc()) == Ok(true));
}

/// Bad values are named, types first.
static WRONG: &[Row] = &[
    ("merge|--cotype=A,,B|a", "citymerge: bad --cotype\n"),
    ("merge|a|--bbox=1,2,3|b", "citymerge: bad --bbox\n"),
    ("merge|a|--bbox=5,0,1,1", "citymerge: bad --bbox\n"),
    (
        "merge|--bbox=1,2,3|a|b|c|--cotype=",
        "citymerge: bad --cotype\n",
    ),
];

/// Words that are no use of `merge`, and what their refusal names.
static REFUSED: &[Row] = &[
    ("merge", "<TILE>..."),
    ("merge|--least|--in-turn", "<TILE>..."),
    ("merge|--", "<TILE>..."),
    ("merge|--bbox=1,2,3", "<TILE>..."),
    ("merge|--cotype|a", "<TILE>..."),
    ("merge|-a", "'-a'"),
    ("merge|a|--inturn", "'--inturn'"),
    ("merge|a|--least|b|--least", "'--least'"),
    ("merge|a|--in-turn=yes", "'--in-turn'"),
    ("--in-turn|merge|a", "'--in-turn'"),
];

#[test]
fn words_that_are_no_use_of_merge_are_refused(rt: HostRuntime) {
    for (words, wanted) in WRONG {
        assert!(rt; is_wrong_use(rt.alloc(), words, wanted));
    }
    for (words, named) in REFUSED {
        assert!(rt; is_refused(rt.alloc(), words, named));
    }
}
