//! The commands of the program with their options and help, as `clap` is told them.
ghost use Rattle.std.specs.Prelude.{◌≡◌, IfOk, false};
ghost use Rattle.clap.specs.Words.{app_of, rule_of};
ghost use Rattle.clap.specs.declared.builder.command.Command.TheViews.{out-Command as fields_of};
ghost use Rattle.command_line.specs.Commands.{above_app, cat_app, choosing, citymerge_app, filter_app};
ghost use Rattle.command_line.specs.Commands.{flag, merge_app, tiles, valued};

use clap::{Arg, ArgAction, Command};
use std::alloc::{AllocError, Global};

static VERSION: &str = "0.1.0";

/// The end of a help text, with the statuses after it.
macro_rules! with_statuses {
    ($text:literal) => {
        concat!(
            $text,
            "\n\nStatus:
  0  done, or help was asked for
  1  refused, with one line on standard error
  2  wrong use, told on standard error; nothing was read"
        )
    };
}

static PROGRAM_END: &str = with_statuses!(
    "A tile is a CityJSONSeq stream of CityJSON 2.0: a header on its first line,
then one feature per line. A whole CityJSON document may stand in place of the
header; it is cut as by `cat`, and its features come first.

Streams are written to standard output, all messages to standard error. A
refusal is told as `citymerge: tile T line L: TEXT`; tiles and lines are
counted from 1. `citymerge-many` merges any number of tiles.

Examples:
  citymerge merge west.city.jsonl east.city.jsonl > both.city.jsonl
  citymerge filter --cotype=Building < tile.city.jsonl > part.city.jsonl
  citymerge cat < town.city.json > town.city.jsonl

`citymerge help COMMAND` tells more about a command."
);

static MERGE_END: &str = with_statuses!(
    "All tiles are moved onto the grid of the first, with nothing rounded: they
need the same scale and reference system, and translations that lie a whole
number of grid units apart. A tile that does not fit is named, and nothing is
written. A line at fault later ends its own tile; all others are written
whole. A feature is written where all options choose it; features with the
same identifier in two tiles are both written.

The header is that of the first tile with its title, but with the extensions
of all tiles and without the geographical extent.

The output must not be one of the tiles: the shell would empty it first.

Examples:
  citymerge merge west.city.jsonl east.city.jsonl > both.city.jsonl
  citymerge merge --least --bbox=-5,0,10,10 west.city.jsonl > part.city.jsonl"
);

static FILTER_END: &str = with_statuses!(
    "A stream is a header, then one feature per line. A whole CityJSON document may
stand in place of the header; its features come first. The output ends at the
first line at fault; what was chosen of the lines before it is written.

A feature is written where all given options choose it; without options all
are written.

Examples:
  citymerge filter --cotype=Building,Road < tile.city.jsonl > part.city.jsonl
  citymerge filter --bbox=-5,0,10,10 < tile.city.jsonl > part.city.jsonl"
);

static CAT_END: &str = with_statuses!(
    "Each city object without parents becomes a feature, with all objects that are
reached from it through children, and with vertices of its own. A document may
be spread over lines, and may have up to 2^28 bytes; it is held in memory. A
document at fault is refused whole, and nothing is written.

The stream may be many times as long as its document, up to its square: each
feature bears the whole appearance, and where objects are parts of several
features, each of these has them all.

Example:
  citymerge cat < town.city.json > town.city.jsonl"
);

static TILE_HELP: &str = "A file with a CityJSONSeq stream: a header, then one feature per
line. A whole CityJSON document may stand in place of the header.
At most 64. /dev/stdin is standard input, `-` a file of that
name; put `--` before a name that begins with `-`.";

static IN_TURN_HELP: &str = "One feature of each tile in turn, in the
order of the tiles, so that the same tiles
give the same stream. Otherwise features
are written as they come.";

static LEAST_HELP: &str = "Move the origin of the grid to the least
translation of the tiles in x, y and z, so
that no vertex is moved below 0. Then
--bbox is in units of that grid.";

static TYPES_HELP: &str = "Only features of these types, separated by
commas: the type of the city object that
the feature's id names. No blanks, as in
--cotype=Building,Bridge. Names are taken
as written: `building` finds nothing.";

static AREA_HELP: &str = "Only features whose extent in x and y
meets this area, even if only at an edge.
Give the least x and y, then the greatest,
in grid units: the whole numbers of
vertices in the output, not metres. They
are (coordinate - translate) / scale,
rounded; GUIDE.md shows how. As in
--bbox=0,0,20000,10000; keep the = before
a number below 0, as in --bbox=-5,0,10,10";

static EXCLUDE_HELP: &str = "Only the features that the other options
do not choose. Alone, it chooses none.";

/// All commands of the program, as `clap` takes them.
pub fn citymerge_command<'a>(alloc: Global) -> Result<Command<'a>, AllocError>
    ensures app { IfOk result (λ command. app_of command ≡ citymerge_app) }
    ensures local { IfOk result (λ command. (fields_of command).has_globals ≡ false) }
{
    above_command(alloc)
        .subcommand(merge_command(alloc)?)?
        .subcommand(filter_command(alloc)?)?
        .subcommand(cat_command(alloc))
}

/// The program above its commands, with its version.
fn above_command<'a>(alloc: Global) -> Command<'a>
    ensures app { app_of result ≡ above_app }
    ensures local { (fields_of result).has_globals ≡ false }
{
    Command::new(alloc, "citymerge")
        .version(VERSION)
        .about("Merge, filter and make CityJSONSeq streams of city models.")
        .after_help(PROGRAM_END)
        .subcommand_required(true)
}

fn merge_command<'a>(alloc: Global) -> Result<Command<'a>, AllocError>
    ensures app { IfOk result (λ command. app_of command ≡ merge_app) }
    ensures local { IfOk result (λ command. (fields_of command).has_globals ≡ false) }
{
    let command = merging_command(alloc)?;
    Ok(
        command
            .about("Join the streams of several files into one.")
            .after_help(MERGE_END),
    )
}

/// The command `merge` with its options and paths.
fn merging_command<'a>(alloc: Global) -> Result<Command<'a>, AllocError>
    ensures app { IfOk result (λ command. app_of command ≡ merge_app) }
    ensures local { IfOk result (λ command. (fields_of command).has_globals ≡ false) }
{
    let in_turn = flag_option(alloc, "in-turn").help(IN_TURN_HELP);
    let least = flag_option(alloc, "least").help(LEAST_HELP);
    choosing_command(alloc, "merge")?
        .arg(in_turn)?
        .arg(least)?
        .arg(tile_paths(alloc))
}

fn filter_command<'a>(alloc: Global) -> Result<Command<'a>, AllocError>
    ensures app { IfOk result (λ command. app_of command ≡ filter_app) }
    ensures local { IfOk result (λ command. (fields_of command).has_globals ≡ false) }
{
    let command = choosing_command(alloc, "filter")?;
    Ok(
        command
            .about("Choose features from a stream on standard input.")
            .override_usage("citymerge filter [OPTIONS] < TILE")
            .after_help(FILTER_END),
    )
}

fn cat_command<'a>(alloc: Global) -> Command<'a>
    ensures app { app_of result ≡ cat_app }
    ensures local { (fields_of result).has_globals ≡ false }
{
    Command::new(alloc, "cat")
        .about("Cut a CityJSON document on standard input into a stream.")
        .override_usage("citymerge cat < DOCUMENT")
        .after_help(CAT_END)
}

/// A command with the options that choose features.
fn choosing_command<'a>(alloc: Global, name: &'a str) -> Result<Command<'a>, AllocError>
    ensures app { IfOk result (λ command. app_of command ≡ choosing name.entry.now) }
    ensures local { IfOk result (λ command. (fields_of command).has_globals ≡ false) }
{
    let types = valued_option(alloc, "cotype", "TYPE,TYPE").help(TYPES_HELP);
    let area = valued_option(alloc, "bbox", "MINX,MINY,MAXX,MAXY").help(AREA_HELP);
    let exclude = flag_option(alloc, "exclude").help(EXCLUDE_HELP);
    Command::new(alloc, name)
        .arg(types)?
        .arg(area)?
        .arg(exclude)
}

/// An option with one value, which a help text names.
fn valued_option<'a>(alloc: Global, name: &'a str, value: &'a str) -> Arg<'a>
    ensures rule { rule_of result ≡ valued name.entry.now }
    ensures local { result.global ≡ false }
{
    Arg::new(alloc, name)
        .long(name)
        .action(ArgAction::Set)
        .value_name(value)
}

fn flag_option<'a>(alloc: Global, name: &'a str) -> Arg<'a>
    ensures rule { rule_of result ≡ flag name.entry.now }
    ensures local { result.global ≡ false }
{
    Arg::new(alloc, name).long(name).action(ArgAction::SetTrue)
}

/// The files of the tiles.
fn tile_paths<'a>(alloc: Global) -> Arg<'a>
    ensures rule { rule_of result ≡ tiles }
    ensures local { result.global ≡ false }
{
    Arg::new(alloc, "TILE")
        .action(ArgAction::Append)
        .required(true)
        .help(TILE_HELP)
}
