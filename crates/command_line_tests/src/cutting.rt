//! The words of `cat`.
use crate::answers::{Row, asks, is_refused};

/// Words that are no use of `cat`, and what their refusal names.
static REFUSED: &[Row] = &[
    ("cat|a.city.json", "'a.city.json'"),
    ("cat|-", "'-'"),
    ("cat|cat", "'cat'"),
    ("cat|--exclude", "'--exclude'"),
    ("cat|--bbox=1,2,3", "'--bbox'"),
    ("cat|--version", "'--version'"),
    ("Cat", "'Cat'"),
];

#[test]
fn cat_is_asked_for_by_its_word_alone(rt: HostRuntime) {
    assert!(rt; asks(rt.alloc(), "cat", "cat"));
    assert!(rt; asks(rt.alloc(), "cat|--", "cat"));
    for (words, named) in REFUSED {
        assert!(rt; is_refused(rt.alloc(), words, named));
    }
}
