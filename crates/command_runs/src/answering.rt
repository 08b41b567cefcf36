//! What the words ask for, done.
ghost use Rattle.std.specs.Prelude.{◌≡◌, ◌⊎◌, ◌<◌, length};
ghost use Rattle.command_runs.specs.Answer.{DidMerge, IsDone, IsSaid, IsStatus, SaidFault};
ghost use Rattle.command_line.specs.Asked.{HasTiles};

use crate::cat::run_cat;
use crate::report::{report_fault, show_help, show_usage};
use crate::run::{run_filter, run_merge};
use crate::tiles::{Opener, open_tiles};
use byte_streams::{Fault, MergeFault, Sink, Source};
use command_line::{MergeArgs, Parsed};
use std::sync::Wait;
use std::thread::Threads;
use tile_stream::TileReader;

/// Does what the words ask for, and answers the status to end with: 0 where it is done, 1 with a fault
/// line on `errors` where it is refused, 2 with what is wrong with the words. `filter` and `cat` take
/// `input`, `merge` what `opener` opens.
pub fn answer<H, O, I, W, E>(
    rt: &H,
    opener: &O,
    asked: Parsed,
    input: I,
    output: &mut W,
    errors: &mut E,
) -> u8
where
    H: AllocGlobal + Threads + Wait + Copy + Send + 'static,
    O: Opener,
    O::Reader: Source + Send + Drop + 'static,
    I: Source + Drop,
    W: Sink,
    E: Sink,
    requires { HasTiles asked }
    ensures status { IsStatus asked result }
    ensures done { result ≡ 0 → IsDone O.Reader.gives (O.may_give opener.now) (I.gives input) asked
        (W.is_flushed output.new) (W.taken output.old) (W.taken output.new)
        (W.failures output.old) (W.failures output.new) }
    ensures said { IsSaid asked result (E.taken errors.old) (E.taken errors.new)
        (E.failures errors.old) (E.failures errors.new) }
    ensures silent { result ≡ 0 → errors.new ≡ errors.old }
{
    match asked {
        Parsed::Merge(args) => answer_merge(rt, opener, &args, output, errors),
        Parsed::Filter(choice) => {
            let mut tile = TileReader::new(rt.alloc(), input);
            run_filter(rt.alloc(), &mut tile, &choice, output, errors)
        }
        Parsed::Cat => {
            let mut input = input;
            run_cat(rt.alloc(), &mut input, output, errors)
        }
        Parsed::Help(text) => show_help(&text, output),
        Parsed::Usage(text) => show_usage(&text, errors),
        Parsed::Memory => report_fault(&MergeFault::of_no_line(Fault::Memory), errors),
    }
}

/// Merges the tiles of the paths, unless one was not opened, and answers the status.
fn answer_merge<H, O, W, E>(
    rt: &H,
    opener: &O,
    args: &MergeArgs,
    output: &mut W,
    errors: &mut E,
) -> u8
where
    H: AllocGlobal + Threads + Wait + Copy + Send + 'static,
    O: Opener,
    O::Reader: Source + Send + Drop + 'static,
    W: Sink,
    E: Sink,
    requires { 0 < length args.now.paths }
    ensures status { (result ≡ 0) ⊎ (result ≡ 1) }
    ensures done { result ≡ 0 → DidMerge O.Reader.gives (O.may_give opener.now) args.now
        (W.is_flushed output.new) (W.taken output.old) (W.taken output.new)
        (W.failures output.old) (W.failures output.new) }
    ensures said { result ≡ 1 → SaidFault (E.taken errors.old) (E.taken errors.new)
        (E.failures errors.old) (E.failures errors.new) }
    ensures silent { result ≡ 0 → errors.new ≡ errors.old }
{
    match open_tiles(rt.alloc(), opener, &args.paths) {
        Ok(readers) => run_merge(rt, rt.alloc(), args, readers, output, errors),
        Err(refusal) => report_fault(&refusal, errors),
    }
}
