//! The choice that the options state.
ghost use Rattle.std.specs.Prelude.{◌≡◌, IfErr, IfOk, option_map};
ghost use Rattle.clap.specs.Words.{first_of};
ghost use Rattle.command_line.specs.Answered.{HasBadArea, RefusesChoice};
ghost use Rattle.command_line.specs.Asked.{AreTypesIn, IsAreaIn, IsChoiceIn, area_text, is_used};
ghost use Rattle.command_line.specs.Asked.{types_text};
ghost use Rattle.command_line.specs.Matches.{rows_in};
ghost use Rattle.command_line.specs.declared.refusal.Refusal.TheVariants.{BadArea};

use crate::refusal::Refusal;
use city_feature::{Area, Choice, Types, area, types};
use clap::ArgMatches;
use std::alloc::Global;

/// The choice that the options of a command state.
pub(crate) fn choice_given(alloc: Global, matches: &ArgMatches<'_>) -> Result<Choice, Refusal>
    ensures ok { IfOk result (IsChoiceIn (rows_in matches.now)) }
    ensures err { IfErr result (λ refusal. RefusesChoice refusal (rows_in matches.now)) }
{
    let types = types_given(alloc, matches)?;
    let area = area_given(matches)?;
    Ok(Choice::new(types, area, is_used(matches, "exclude")))
}

fn types_given(alloc: Global, matches: &ArgMatches<'_>) -> Result<Option<Types>, Refusal>
    ensures ok { IfOk result (AreTypesIn (types_text (rows_in matches.now))) }
    ensures err { IfErr result (λ refusal. RefusesChoice refusal (rows_in matches.now)) }
{
    let Some(text) = value_of(matches, "cotype") else {
        return Ok(None);
    };
    match types(alloc, text)? {
        Some(given) => Ok(Some(given)),
        None => Err(Refusal::BadTypes),
    }
}

fn area_given(matches: &ArgMatches<'_>) -> Result<Option<Area>, Refusal>
    ensures ok { IfOk result (IsAreaIn (area_text (rows_in matches.now))) }
    ensures err { IfErr result (λ refusal. (refusal ≡ BadArea)
        × HasBadArea (rows_in matches.now)) }
{
    let Some(text) = value_of(matches, "bbox") else {
        return Ok(None);
    };
    match area(text) {
        Some(given) => Ok(Some(given)),
        None => Err(Refusal::BadArea),
    }
}

/// Whether a flag was used.
pub(crate) fn is_used(matches: &ArgMatches<'_>, name: &str) -> bool
    ensures { result ≡ is_used name.now (rows_in matches.now) }
{
    match value_of(matches, name) {
        Some(text) => text == "true",
        None => false,
    }
}

/// The first value of an option.
fn value_of<'a>(matches: &ArgMatches<'a>, name: &str) -> Option<&'a str>
    ensures { option_map (λ text. text.now) result ≡ first_of name.now (rows_in matches.now) }
{
    matches.get_str(name)
}
