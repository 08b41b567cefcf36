//! What `merge` is asked.
ghost use Rattle.std.specs.Prelude.{◌≡◌, ◌<◌, IfErr, IfOk, codes, length, map, option_map};
ghost use Rattle.clap.specs.Words.{all_of};
ghost use Rattle.command_line.specs.Answered.{RefusesCommand};
ghost use Rattle.command_line.specs.Asked.{IsMergeIn, paths_in};
ghost use Rattle.command_line.specs.Matches.{rows_in};

use crate::choosing::{choice_given, is_used};
use crate::parsing::Paths;
use crate::refusal::Refusal;
use byte_streams::Fault;
use city_feature::Choice;
use city_json::Str;
use clap::ArgMatches;
use std::alloc::Global;

/// What `merge` is asked.
#[derive(Debug, Drop)]
pub struct MergeArgs {
    /// Which features are written.
    pub choice: Choice,
    /// Whether the tiles take turns (`--in-turn`).
    pub in_turn: bool,
    /// Whether the grid begins at the least translation of the tiles (`--least`), not at the first.
    pub least: bool,
    /// The files of the tiles in order, one at least.
    pub paths: Paths,
}

/// What the options and the paths of `merge` state.
pub(crate) fn merge_given(alloc: Global, matches: &ArgMatches<'_>) -> Result<MergeArgs, Refusal>
    ensures ok { IfOk result (IsMergeIn (rows_in matches.now)) }
    ensures some { IfOk result (λ args. 0 < length args.paths) }
    ensures err { IfErr result (λ refusal.
        RefusesCommand refusal (codes "merge", rows_in matches.now)) }
{
    let choice = choice_given(alloc, matches)?;
    let paths = paths_given(alloc, matches)?;
    if paths.items().is_empty() {
        return Err(Refusal::NoTile);
    }
    Ok(MergeArgs {
        choice,
        in_turn: is_used(matches, "in-turn"),
        least: is_used(matches, "least"),
        paths,
    })
}

fn paths_given(alloc: Global, matches: &ArgMatches<'_>) -> Result<Paths, Fault>
    ensures { IfOk result (λ paths. paths ≡ paths_in (rows_in matches.now)) }
{
    match values_of(matches, "TILE") {
        Some(given) => paths_of(alloc, given),
        None => Ok(Paths::new(alloc)),
    }
}

/// The words or paths that these texts are, in order. The only fault is [`Fault::Memory`].
pub fn paths_of(alloc: Global, texts: &[&str]) -> Result<Paths, Fault>
    ensures ok { IfOk result (λ paths. paths ≡ map (λ text. text.now) texts.now) }
    ensures fault { IfErr result (λ fault. fault ≡ Fault.Memory) }
{
    let mut paths = Paths::new(alloc);
    for text in texts {
        paths.push(Str::read(alloc, text)?)?;
    }
    Ok(paths)
}

/// All values of an argument.
fn values_of<'b, 'a>(matches: &'b ArgMatches<'a>, name: &str) -> Option<&'b [&'a str]>
    ensures { option_map (λ texts. map (λ text. text.now) texts.now) result
        ≡ all_of name.now (rows_in matches.now) }
{
    matches.get_strs(name)
}
