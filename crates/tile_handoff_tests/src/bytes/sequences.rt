//! Sequences keep their items.
use byte_streams::Sequence;
use std::alloc::{AllocError, Global};

fn numbers_are_kept(alloc: Global) -> Result<(bool, bool), AllocError> {
    let mut numbers = Sequence::from_vec(vec![in alloc; 3, 1]?);
    numbers.push(2)?;
    let wanted = [3, 1, 2];
    let are_items = numbers.items() == wanted.as_slice();
    Ok((
        are_items,
        numbers.into_vec().as_slice() == wanted.as_slice(),
    ))
}

fn names_are_kept(alloc: Global) -> Result<(bool, bool), AllocError> {
    let mut names = Sequence::new(alloc);
    let is_empty = names.items().is_empty();
    names.push("a")?;
    Ok((is_empty, names.into_vec().as_slice() == ["a"].as_slice()))
}

#[test]
fn a_sequence_keeps_its_items(rt: HostRuntime) {
    assert!(rt; numbers_are_kept(rt.alloc()) == Ok((true, true)));
    assert!(rt; names_are_kept(rt.alloc()) == Ok((true, true)));
}
