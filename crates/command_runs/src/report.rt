//! What is shown of a fault, of help, and of wrong words, and the status of each.
ghost use Rattle.std.specs.Prelude.{◌≡◌};
ghost use Rattle.command_runs.specs.FaultLine.{fault_line};
ghost use Rattle.command_runs.specs.Passing.{ShownOrFailed, WroteOrFailed};

use crate::fault_line::FaultLine;
use byte_streams::{Line, MergeFault, Sink, write_all};

/// Writes the fault line, and answers the status of a refusal, whatever becomes of the write.
pub fn report_fault<E: Sink>(refusal: &MergeFault, errors: &mut E) -> u8
    ensures status { result ≡ 1 }
    ensures line { WroteOrFailed (fault_line refusal.now) (E.taken errors.old) (E.taken errors.new)
        (E.failures errors.old) (E.failures errors.new) }
{
    show(FaultLine::of(refusal).as_bytes(), errors);
    1
}

/// Writes a text that was asked for and passes it on, and answers the status of a run that is done,
/// whatever becomes of that.
pub fn show_help<W: Sink>(text: &Line, output: &mut W) -> u8
    ensures status { result ≡ 0 }
    ensures text { ShownOrFailed text.now (W.is_flushed output.new)
        (W.taken output.old) (W.taken output.new)
        (W.failures output.old) (W.failures output.new) }
{
    if let Ok(()) = write_all(output, text.items()) {
        let _ = output.flush();
    }
    0
}

/// Writes what is wrong with the words, and answers the status of wrong use, whatever becomes of the
/// write.
pub fn show_usage<E: Sink>(text: &Line, errors: &mut E) -> u8
    ensures status { result ≡ 2 }
    ensures text { WroteOrFailed text.now (E.taken errors.old) (E.taken errors.new)
        (E.failures errors.old) (E.failures errors.new) }
{
    show(text.items(), errors);
    2
}

fn show<W: Sink>(text: &[u8], to: &mut W)
    ensures { WroteOrFailed text.now (W.taken to.old) (W.taken to.new)
        (W.failures to.old) (W.failures to.new) }
{
    let _ = write_all(to, text);
}
