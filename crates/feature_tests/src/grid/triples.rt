//! Vertices that are read where the text of one is known to stand: at each length of their numbers, wherever the text
//! begins and ends.
use crate::grid::texts::INTEGERS;
use byte_streams::Fault;
use city_grid::{PlacedPlan, Vertex, triple_plan_at, triple_vertex_at};
use std::alloc::{AllocError, AllocGlobal, Global};
use std::process::Abort;

/// What stands before a vertex, and after it: little, and more than is read at once.
const AROUND: [(&str, &str); 6] = [
    ("", ""),
    ("[", "]"),
    ("[[1,2,3],", ",[4,5,6]]}"),
    ("[[-1,-2,-3],[10000000,20000000,30000000],", "]}"),
    ("[", ",[1000000,2000000,3000000],[4000000,5000000,6000000]]"),
    (
        "-12345678901234567890",
        "12345678901234567890,98765432109876543210",
    ),
];

/// Whether the vertex of the integers is read, with its z and without, and its end found, in this text around it.
fn is_read(
    alloc: Global,
    (x, y, z): (i64, i64, i64),
    (before, after): (&str, &str),
) -> Result<bool, Fault> {
    let vertex = Vertex::new(x, y, z).ok_or(Fault::VertexRange)?;
    let text = format!(in alloc; "{before}[{x},{y},{z}]{after}")?;
    let end = text.len().saturating_sub(after.len());
    let Some(found) = triple_vertex_at(text.as_bytes(), before.len()) else {
        return Ok(false);
    };
    let plan = triple_plan_at(text.as_bytes(), before.len());
    Ok(found.vertex == vertex && found.end == end && plan == Some(PlacedPlan { x, y, end }))
}

fn is_read_everywhere(alloc: Global, integers: (i64, i64, i64)) -> bool {
    AROUND
        .iter()
        .all(|around| is_read(alloc, integers, *around) == Ok(true))
}

/// Whether an integer is read in each place, beside short and long ones.
fn is_read_on_each_axis(alloc: Global, integer: i64) -> bool {
    is_read_everywhere(alloc, (integer, 0, -7))
        && is_read_everywhere(alloc, (12_345_678, integer, 123_456_789))
        && is_read_everywhere(alloc, (-1, 85_000_000, integer))
        && is_read_everywhere(alloc, (integer, integer, integer))
}

fn expect_read(rt: &(impl Abort + AllocGlobal), integer: i64) {
    let are_read = is_read_on_each_axis(rt.alloc(), integer)
        && is_read_on_each_axis(rt.alloc(), i64::wrapping_neg(integer));
    assert!(rt; are_read, "{integer}");
}

#[test]
fn triples_of_all_lengths_are_read(rt: HostRuntime) {
    for integer in INTEGERS.iter() {
        if *integer < 1_000_000_000_000_000 {
            expect_read(&rt, *integer);
        }
    }
}

/// Numbers of one to eight digits in no order, but the same ones in each run.
#[test]
fn triples_of_mixed_digits_are_read(rt: HostRuntime) {
    let mut state = 1u64;
    for number in 0..3000u32 {
        state = state
            .wrapping_mul(6364136223846793005)
            .wrapping_add(1442695040888963407);
        let x = (state >> 20) % 100_000_000;
        let y = (state >> 40) % 10_000;
        let z = (state >> 33) % 1_000_003;
        let integers = (x as i64, i64::wrapping_neg(y as i64), z as i64);
        assert!(rt; is_read_everywhere(rt.alloc(), integers), "{number}");
    }
}

/// Numbers of one to fifteen digits are below one of these.
const POWERS: [u64; 15] = [
    10,
    100,
    1_000,
    10_000,
    100_000,
    1_000_000,
    10_000_000,
    100_000_000,
    1_000_000_000,
    10_000_000_000,
    100_000_000_000,
    1_000_000_000_000,
    10_000_000_000_000,
    100_000_000_000_000,
    1_000_000_000_000_000,
];

/// Some number below this one.
fn below(most: u64, state: u64) -> i64 {
    match state.checked_rem(most) {
        Some(number) => number.cast_signed(),
        None => 0,
    }
}

#[test]
fn triples_of_all_digits_are_read(rt: HostRuntime) {
    let mut state = 1u64;
    for most in POWERS.iter() {
        for others in POWERS.iter() {
            state = state
                .wrapping_mul(6364136223846793005)
                .wrapping_add(1442695040888963407);
            let y = i64::wrapping_neg(below(*others, state >> 3));
            let integers = (below(*most, state >> 8), y, below(*most, !state >> 8));
            assert!(rt; is_read_everywhere(rt.alloc(), integers), "{most} {others}");
        }
    }
}

/// In what is no vertex, and in the front of one, none is found, whatever stands after the one and nothing after the
/// other; and no x and y either, but where that is said.
const OTHERS: [(&str, bool); 6] = [
    ("[,,]", false),
    ("[-,-,-]", false),
    ("[1,2,-]", true),
    ("[12345678901234567,1,1]", false),
    ("[9007199254740992,1,1]", false),
    ("[1,9007199254740992,1]", false),
];

const FRONTS: [&str; 9] = [
    "", "[", "[1", "[1,", "[1,2", "[1,2,", "[1,2,3", "[-1,-2,", ",,",
];

/// Bytes that stand after a vertex: more than is looked at at once.
const AFTER: &str = ",[1,2,3],[400,500,600],[7000,8000,9000],[10000,20000,30000]]";

/// Whether there is no vertex in this text, and an x and a y only where that is said.
fn is_passed_over(
    alloc: Global,
    front: &str,
    after: &str,
    has_plan: bool,
) -> Result<bool, AllocError> {
    let text = format!(in alloc; "{front}{after}")?;
    let is_plan = triple_plan_at(text.as_bytes(), 0).is_some();
    Ok(triple_vertex_at(text.as_bytes(), 0).is_none() && is_plan == has_plan)
}

#[test]
fn nothing_is_found_in_other_texts(rt: HostRuntime) {
    for (text, has_plan) in OTHERS.iter() {
        let is_alone = is_passed_over(rt.alloc(), text, "", *has_plan) == Ok(true);
        let is_followed = is_passed_over(rt.alloc(), text, AFTER, *has_plan) == Ok(true);
        assert!(rt; is_alone && is_followed, "{text}");
    }
    for text in FRONTS.iter() {
        assert!(rt;
            is_passed_over(rt.alloc(), text, "", false) == Ok(true),
            "{text}"
        );
        assert!(rt; triple_vertex_at(text.as_bytes(), 40).is_none(), "{text}");
        assert!(rt; triple_plan_at(text.as_bytes(), 40).is_none(), "{text}");
    }
}
