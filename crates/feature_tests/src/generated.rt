//! Generated lines: what is answered is what the value gives, whether one is built or not.
use crate::answers::{answer_of_value, choice_of, is_answered, shift_of, takes_memory_over};
use byte_streams::Fault;
use city_feature::Choice;
use city_grid::Shift;
use std::alloc::{AllocError, Global};

/// What may stand for a name, with a bar between two words. Between dollar signs stand names again.
fn words_of(name: &str, is_common: bool) -> &'static str {
    match name {
        "line" => {
            "{$t$,$i$,$C$,$v$}|{$v$,$C$,$i$,$t$}|{$i$,$t$,$v$,$C$}|{$C$,$v$,$t$,$i$}|{$m$,$t$,$v$,$i$,$C$}|{$v$,$m$,$t$,$C$,$i$}|{$t$,$i$,$C$,$m$,$v$}|{$i$,$t$,$C$,$v$,$m$}"
        }
        "t" => r#""type":$white$"CityJSONFeature""#,
        "i" => r#"$white$"id":$id$"#,
        "id" => r#""a"|""|"\u00e9\n"|"建""#,
        "C" => r#""CityObjects"$white$:$objects$"#,
        "objects" => {
            r#"{}|{"a":{"type":"Building"}}|{"a" : {"type":"Bridge", "attributes":{"vertices":[[1,2]]}}}|{"\u0061":{},"b":{"geometry":[{"boundaries":[[[0,1,2]]]}]}}"#
        }
        "m" => r#""more":$other$"#,
        "other" => r#"1.50e+3|[[1,2,3],[-0]]|"\/"|{"type":"CityJSON","id":1}"#,
        "v" => r#""vertices":$white$[$vertices$]"#,
        "vertices" => {
            "|$xyz$|$xyz$,$xyz$|$xyz$,$xyz$,$xyz$|$xyz$,$xyz$,$xyz$,$xyz$,$xyz$,$xyz$,$xyz$|$xyz$,$xyz$,$xyz$,$xyz$,$xyz$,$xyz$,$xyz$,$xyz$,$xyz$,$xyz$,$xyz$,$xyz$,$xyz$,$xyz$,$xyz$,$xyz$,$xyz$,$xyz$,$xyz$"
        }
        "xyz" => "$white$[$number$,$white$$number$,$number$$white$]",
        "number" if is_common => {
            "0|7|-7|10|-250|1000000000000000|9007199254739991|-9007199254739991"
        }
        "number" => {
            "0|1|-5|12|400|-0|1.0|1e2|9007199254740991|-9007199254740992|00000000000000001|\"1\""
        }
        _ => "||| ",
    }
}

/// Words in no order, but the same ones in each run.
#[derive(Drop)]
struct Draws {
    state: u64,
}

impl Draws {
    /// One of the words between bars.
    fn pick(&mut self, words: &'static str) -> &'static str {
        self.state = self
            .state
            .wrapping_mul(6364136223846793005)
            .wrapping_add(1442695040888963407);
        let at = (self.state >> 33) % 840;
        let place = (at as usize).checked_rem(words.split('|').count());
        match words.split('|').nth(place.unwrap_or(0)) {
            Some(word) => word,
            None => "",
        }
    }
}

/// The text, in which a word stands for each name.
fn expanded(
    alloc: Global,
    draws: &mut Draws,
    text: &str,
    is_common: bool,
) -> Result<String, AllocError> {
    let mut expanded = String::new(alloc);
    let mut is_name = false;
    for piece in text.split('$') {
        let word = if is_name {
            draws.pick(words_of(piece, is_common))
        } else {
            piece
        };
        expanded.push_str(word)?;
        is_name = !is_name;
    }
    Ok(expanded)
}

fn drawn_line(alloc: Global, draws: &mut Draws, is_common: bool) -> Result<String, AllocError> {
    let mut line = String::from_str(alloc, "$line$")?;
    for _ in 0..6 {
        line = expanded(alloc, draws, &line, is_common)?;
    }
    Ok(line)
}

fn drawn_choice(alloc: Global, draws: &mut Draws, names: &str) -> Result<Choice, Fault> {
    let corners = draws.pick("|0,0,10,10|-1000,-1000,1000,1000|5,5,5,5");
    let exclude = draws.pick("others|others|others|").is_empty();
    choice_of(alloc, names, corners, !exclude)
}

/// Whether the line is answered as its value is.
fn has_one_answer(alloc: Global, line: &[u8], shift: Shift, choice: &Choice) -> bool {
    match answer_of_value(alloc, line, shift, choice) {
        Ok(text) => is_answered(alloc, line, (shift, choice), text.items(), None),
        Err(fault) => is_answered(alloc, line, (shift, choice), b"", Some(fault)),
    }
}

/// The same of a drawn choice and shift.
fn is_told(alloc: Global, draws: &mut Draws, line: &[u8], names: &str) -> bool {
    let Some(shift) = shift_of(draws.pick("1000,-20,0|1000,-20,0|1000,-20,0|all")) else {
        return false;
    };
    match drawn_choice(alloc, draws, names) {
        Ok(choice) => has_one_answer(alloc, line, shift, &choice),
        Err(_) => false,
    }
}

/// Whether a drawn line is answered as its value is, and whether with no value built.
fn drawn_is_told(
    alloc: Global,
    draws: &mut Draws,
    names: &str,
    is_common: bool,
) -> Result<(bool, bool), AllocError> {
    let line = drawn_line(alloc, draws, is_common)?;
    Ok((
        is_told(alloc, draws, line.as_bytes(), names),
        takes_memory_over(alloc, &line, names),
    ))
}

#[test]
fn common_lines_have_one_answer(rt: HostRuntime) {
    let mut draws = Draws { state: 1 };
    for number in 0..300 {
        let answer = drawn_is_told(rt.alloc(), &mut draws, "", true);
        assert!(rt; answer == Ok((true, true)), "line {number}");
    }
}

/// How many of six hundred drawn lines are answered with no value built; none where one is not answered as its value is.
fn count_without_value(alloc: Global) -> Option<u64> {
    let mut draws = Draws { state: 2 };
    let mut count = 0u64;
    for _ in 0..600 {
        let is_common = !draws.pick("common|common|common|").is_empty();
        let names = draws.pick("|Building|Road,Bridge|Road");
        match drawn_is_told(alloc, &mut draws, names, is_common) {
            Ok((true, needs_no_value)) => count = count.saturating_add(needs_no_value as u64),
            _ => return None,
        }
    }
    Some(count)
}

#[test]
fn lines_of_any_kind_have_one_answer(rt: HostRuntime) {
    let count = count_without_value(rt.alloc()).unwrap_or(0);
    assert!(rt; count > 50 && count < 500, "{count}");
}
