//! That no object has a repeated name: which texts are refused for it, and that it takes no long time.
use crate::texts::{Pieces, expect_at, expect_of_pieces, is_answered, is_compacted, is_refused};
use byte_streams::Fault;
use city_json::read;
use std::alloc::{AllocError, AllocGlobal, Global};
use std::process::Abort;

const DISTINCT: [Pieces<'static>; 9] = [
    &[(b"{\"a\":1,\"b\":1}", 1)],
    &[(b"[null,", 1), (b"{\"a\":1,\"b\":1}", 1), (b"]", 1)],
    &[(b"[null,", 127), (b"{\"a\":1,\"b\":1}", 1), (b"]", 127)],
    &[(b"{\"a\":{\"a\":1,\"b\":1},\"b\":{\"a\":1,\"b\":1}}", 1)],
    &[(b"{\"\":null,\"a\":null,\"b\":null,\"ab\":null}", 1)],
    &[(b"{\"A\":null,\"a\":null,\"\xc3\xa9\":null,\"e\":null}", 1)],
    &[(b"{\"\\n\":1,\"n\":1,\"\\\\n\":1,\"\\\\\":1}", 1)],
    &[(b"{\"\\n\":{\"\\n\":1,\"a\":1},\"a\":{\"\\n\":1}}", 1)],
    &[(b"{\"\\\"\":1,\"\\\"\\\"\":1,\"\":1}", 1)],
];

const REPEATED: [Pieces<'static>; 13] = [
    &[(b"{\"a\":1,\"a\":1}", 1)],
    &[(b"[null,", 1), (b"{\"a\":1,\"a\":1}", 1), (b"]", 1)],
    &[(b"[null,", 127), (b"{\"a\":1,\"a\":1}", 1), (b"]", 127)],
    &[(b"[", 127), (b"{\"a\":1,\"a\":1}", 1), (b"]", 127)],
    &[(b"{\"a\":{\"b\":1,\"b\":1}}", 1)],
    &[(b"{\"a\":null,\"a\":null,\"b\":null,\"c\":null}", 1)],
    &[(b"{\"a\":null,\"b\":null,\"c\":null,\"a\":null}", 1)],
    &[(b"{\"b\":null,\"c\":null,\"a\":null,\"a\":null}", 1)],
    &[(b"{\"\\u0061\":1,\"a\":1}", 1)],
    &[(b"{\"a\\nb\":1,\"a\\u000ab\":1}", 1)],
    &[(b"{\"\\/\":1,\"/\":1}", 1)],
    &[(b"{\"\\ud83d\\ude00\":1,\"\xf0\x9f\x98\x80\":1}", 1)],
    &[(b"{\"a\":{\"\\u0062\":1,\"b\":1},\"b\":1}", 1)],
];

#[test]
fn a_repeated_name_is_found_wherever_it_stands(rt: HostRuntime) {
    for text in REPEATED.iter() {
        let is_refused = is_answered(rt.alloc(), text, Some(Fault::DuplicateName));
        expect_of_pieces(&rt, is_refused, text);
    }
}

#[test]
fn distinct_names_are_taken(rt: HostRuntime) {
    for text in DISTINCT.iter() {
        expect_of_pieces(&rt, is_answered(rt.alloc(), text, None), text);
    }
}

/// Names of one kind, one for each number.
#[derive(Clone, Copy)]
enum Names {
    /// They begin like each other.
    Alike,
    /// Each is the front of the next.
    Fronts,
    /// They have letters beyond ASCII.
    Streets,
    /// They begin and end alike.
    EndAlike,
    /// They have one print, so that they are told apart by themselves.
    OnePrint,
    /// They have one hash in a table whose seed is known.
    OneHash,
    /// An escape stands in each, also in the compact text.
    Lines,
}

/// Parts of names of one print, whichever of each two is taken, where all have as many: found by a search for two words
/// each after which FxHash has the same number.
const EITHER: [(&str, &str); 12] = [
    ("Z BH uRJNCQtw5Jc", "jxa4L3ASW97rdD1l"),
    ("867p10ijATlF_ gy", "Unrck9Escg4dr3Bj"),
    ("k_jl7HvDrKbr_eyz", "NosZFcNMSXi3Ju4K"),
    ("llm157LuB7h3e95r", "t4vg3XrrXpQHvvzs"),
    ("t0nQX4iVoC4yBZEa", "dG8p87GJjuCldQ73"),
    ("eVhS3riDd8WH65P0", "EqII2gRzpLcxOXMm"),
    ("OzAXxv0A06y1S84u", "eYlZJmeCkr_v1gl8"),
    ("UGcakOmf6ZlqFT 1", "jPb4C3mrFp8YZ7xx"),
    ("wyq4e5IutJ2Teyc3", "wv3L0fKSejg G5LF"),
    ("nA8ARngaYEPLvN02", "CSA4aiHNtdDv64bt"),
    ("4wbXZaxZ78THktPK", "VObai_NQxWE1VI2W"),
    ("D9kIwCv ZLq7kv6f", "SPwvcc1M2iD0Q1se"),
];

/// All but the last character of the name of this number among those of one print.
fn of_one_print(alloc: Global, number: usize) -> Result<String, AllocError> {
    let mut name = String::new(alloc);
    let mut left = number;
    for either in EITHER.iter() {
        name.push_str(if left % 2 == 0 { either.0 } else { either.1 })?;
        left /= 2;
    }
    name.push_str("oneprin")?;
    Ok(name)
}

/// What stands before the number in a name, how many digits that has at least, and what stands after it; of the fronts
/// and the names of one print, which have no number, nothing.
fn parts_of(names: Names) -> (&'static str, usize, &'static str) {
    match names {
        Names::Alike => ("a name that begins like each other ", 6, ""),
        Names::Fronts | Names::OnePrint => ("", 0, ""),
        Names::Streets => ("stra\u{df}e ", 5, " of many"),
        Names::EndAlike => ("attribute ", 4, " attribute"),
        Names::OneHash => ("hi4iSqofOI1SdKlRPfC,#S Z", 8, "0123456789abcdef"),
        Names::Lines => ("line\\n", 6, "\\n"),
    }
}

/// The member of this number.
fn member(alloc: Global, names: Names, number: usize) -> Result<String, AllocError> {
    if matches!(names, Names::Fronts) {
        return format!(in alloc; "\"{:n<number$}\":null", "");
    }
    if matches!(names, Names::OnePrint) {
        let front = of_one_print(alloc, number)?;
        return format!(in alloc; "\"{front}t\":null");
    }
    let (front, width, back) = parts_of(names);
    format!(in alloc; "\"{front}{number:0width$}{back}\":null")
}

/// The same member, with more escapes in its name.
fn respelled(alloc: Global, names: Names, number: usize) -> Result<String, AllocError> {
    match names {
        Names::Streets => format!(in alloc; "\"\\u0073tra\\u00dfe {number:05} of many\":null"),
        Names::EndAlike => format!(in alloc;
            "\"\\u0061ttribute {number:04} attribut\\u0065\":null"
        ),
        Names::OnePrint => {
            let front = of_one_print(alloc, number)?;
            format!(in alloc; "\"{front}\\u0074\":null")
        }
        Names::Lines => format!(in alloc; "\"l\\u0069ne\\u000A{number:06}\\u000a\":null"),
        Names::Alike | Names::Fronts | Names::OneHash => member(alloc, names, number),
    }
}

/// An object of so many members, and then these.
fn object(alloc: Global, names: Names, count: usize, more: &str) -> Result<String, AllocError> {
    let mut text = String::new(alloc);
    for number in 0..count {
        text.push_str(if number == 0 { "{" } else { "," })?;
        text.push_str(&member(alloc, names, number)?)?;
    }
    text.push_str(more)?;
    text.push('}')?;
    Ok(text)
}

fn is_taken(alloc: Global, names: Names, count: usize, more: &str, compact: &str) -> bool {
    match (
        object(alloc, names, count, more),
        object(alloc, names, count, compact),
    ) {
        (Ok(text), Ok(compact)) => is_compacted(alloc, text.as_bytes(), compact.as_bytes()),
        _ => false,
    }
}

fn is_repeated(alloc: Global, names: Names, count: usize, more: &str) -> bool {
    match object(alloc, names, count, more) {
        Ok(text) => is_refused(alloc, text.as_bytes(), Fault::DuplicateName),
        Err(_) => false,
    }
}

/// Objects of so many members and one more, which is distinct from them, as it is written and as it is in the compact
/// text; and of another one, which is not.
struct Objects {
    names: Names,
    counts: &'static [usize],
    distinct: &'static str,
    compact: &'static str,
    repeated: &'static str,
}

const OBJECTS: [Objects; 10] = [
    Objects {
        names: Names::Alike,
        counts: &[
            1, 2, 5, 6, 7, 15, 16, 17, 40, 63, 64, 65, 300, 511, 512, 513, 1000,
        ],
        distinct: "",
        compact: "",
        repeated: ",\"a name that begins like each other 000000\":null",
    },
    Objects {
        names: Names::Fronts,
        counts: &[100],
        distinct: "",
        compact: "",
        repeated: ",\"\":null",
    },
    Objects {
        names: Names::Streets,
        counts: &[
            1, 2, 3, 15, 16, 17, 40, 63, 64, 65, 257, 300, 511, 512, 513, 10_000,
        ],
        distinct: "",
        compact: "",
        repeated: ",\"stra\u{df}e 00000 of many\":null",
    },
    Objects {
        names: Names::Streets,
        counts: &[1, 15, 16, 17, 300],
        distinct: ",\"\\u0073tra\\u00dfe 99999 of many\":null",
        compact: ",\"stra\u{df}e 99999 of many\":null",
        repeated: ",\"\\u0073tra\\u00dfe 99999 of many\":null,\"stra\\u00DFe 00000 of many\":null",
    },
    Objects {
        names: Names::EndAlike,
        counts: &[1, 2, 6, 7, 16, 17, 40, 64, 65, 300, 512, 513, 1000],
        distinct: "",
        compact: "",
        repeated: ",\"attribute 0000 attribute\":null",
    },
    Objects {
        names: Names::EndAlike,
        counts: &[1000],
        distinct: "",
        compact: "",
        repeated: ",\"attribute 0999 attribute\":null",
    },
    Objects {
        names: Names::OnePrint,
        counts: &[1, 2, 6, 7, 16, 17, 40, 64, 65, 300, 512, 513, 1000],
        distinct: "",
        compact: "",
        repeated: FIRST_OF_ONE_PRINT,
    },
    Objects {
        names: Names::OneHash,
        counts: &[8000],
        distinct: "",
        compact: "",
        repeated: ",\"hi4iSqofOI1SdKlRPfC,#S Z000039990123456789abcdef\":null",
    },
    Objects {
        names: Names::Alike,
        counts: &[1, 2, 3, 12, 13, 40, 60, 61, 300, 508, 509],
        distinct: SAME_PLACES,
        compact: SAME_PLACES,
        repeated: REPEATED_PLACE,
    },
    // their ends agree, so that it is the sieve by all bytes that does not tell the last four apart
    Objects {
        names: Names::EndAlike,
        counts: &[2, 3, 12, 13, 40, 60, 61, 300, 508, 509],
        distinct: SAME_PLACES,
        compact: SAME_PLACES,
        repeated: REPEATED_PLACE,
    },
];

/// The first member of those of one print.
const FIRST_OF_ONE_PRINT: &str =
    ",\"Z BH uRJNCQtw5Jc867p10ijATlF_ gyk_jl7HvDrKbr_eyzllm157LuB7h3e95rt0nQX4iVoC4yBZEaeVhS3riDd8WH65P0OzAXxv0A06y1S84uUGcakOmf6ZlqFT 1wyq4e5IutJ2Teyc3nA8ARngaYEPLvN024wbXZaxZ78THktPKD9kIwCv ZLq7kv6foneprint\":null";

/// Members whose names have prints of their own, and pairwise the same places in both sets of the sieve.
const SAME_PLACES: &str =
    ",\"a name that begins like each other 002848\":null,\"a name that begins like each other 008407\":null,\"a name that begins like each other 022695\":null,\"a name that begins like each other 033663\":null";

/// One of these members twice.
const REPEATED_PLACE: &str =
    ",\"a name that begins like each other 002848\":null,\"a name that begins like each other 002848\":null";

fn are_told_apart(alloc: Global, row: &Objects, count: usize) -> bool {
    is_taken(alloc, row.names, count, row.distinct, row.compact)
        && is_repeated(alloc, row.names, count, row.repeated)
}

fn expect_told_apart(rt: &(impl Abort + AllocGlobal), row: &Objects) {
    for count in row.counts {
        let holds = are_told_apart(rt.alloc(), row, *count);
        expect_at(rt, holds, *count, row.repeated.as_bytes());
    }
}

#[test]
fn names_are_told_apart_in_objects_of_any_size(rt: HostRuntime) {
    for row in OBJECTS.iter() {
        expect_told_apart(&rt, row);
    }
}

/// An object of so many members, where this one stands in place of one of them.
fn exchanged(
    alloc: Global,
    names: Names,
    count: usize,
    place: usize,
    other: &str,
) -> Result<String, AllocError> {
    let mut text = String::new(alloc);
    for number in 0..count {
        text.push_str(if number == 0 { "{" } else { "," })?;
        if number == place {
            text.push_str(other)?;
        } else {
            text.push_str(&member(alloc, names, number)?)?;
        }
    }
    text.push('}')?;
    Ok(text)
}

/// Whether a name with escapes at this place is taken where it is a new one, and refused where another member has it.
fn is_decoded_at(
    alloc: Global,
    names: Names,
    count: usize,
    place: usize,
) -> Result<bool, AllocError> {
    let other = if place == 0 { 1 } else { 0 };
    let new = exchanged(alloc, names, count, place, &respelled(alloc, names, count)?)?;
    let compact = exchanged(alloc, names, count, place, &member(alloc, names, count)?)?;
    let old = exchanged(alloc, names, count, place, &respelled(alloc, names, other)?)?;
    Ok(
        is_compacted(alloc, new.as_bytes(), compact.as_bytes())
            && is_refused(alloc, old.as_bytes(), Fault::DuplicateName),
    )
}

const ESCAPED: [Names; 3] = [Names::Streets, Names::EndAlike, Names::Lines];

const COUNTS: [usize; 14] = [2, 6, 7, 16, 17, 40, 63, 64, 65, 300, 511, 512, 513, 2000];

fn expect_decoded(rt: &(impl Abort + AllocGlobal), names: Names, count: usize) {
    for place in [0, count / 2, count.saturating_sub(1)] {
        let holds = is_decoded_at(rt.alloc(), names, count, place) == Ok(true);
        expect_at(rt, holds, count, b"escaped");
    }
}

#[test]
fn a_name_with_escapes_is_told_by_what_it_spells(rt: HostRuntime) {
    for names in ESCAPED {
        for count in COUNTS {
            expect_decoded(&rt, names, count);
        }
    }
}

#[test]
fn a_name_with_escapes_of_one_print_with_others_is_told(rt: HostRuntime) {
    for count in [2usize, 6, 7, 16, 17, 64, 65, 512, 513] {
        expect_decoded(&rt, Names::OnePrint, count);
    }
}

#[test]
fn many_names_with_escapes_take_no_long_time(rt: HostRuntime) {
    assert!(rt; is_taken(rt.alloc(), Names::Lines, 30_000, "", ""));
}

fn many_long_names_are_read(alloc: Global) -> bool {
    match object(alloc, Names::Alike, 200_000, "") {
        Ok(text) => read(alloc, text.as_bytes()).is_ok(),
        Err(_) => false,
    }
}

#[test]
fn many_long_names_take_no_long_time(rt: HostRuntime) {
    assert!(rt; many_long_names_are_read(rt.alloc()));
}
