//! What is said of faults, of help and of wrong words, and the status of each, where not all of it is taken.

use byte_streams::{Bin, Fault, Line, MergeFault};
use command_runs::{report_fault, show_help, show_usage};
use std::alloc::Global;

/// Whether this is said of a fault where so many bytes are taken.
fn is_said(alloc: Global, fault: &MergeFault, room: usize, said: &str) -> Result<bool, Fault> {
    let mut errors = Bin::new(alloc, room, 128, false)?;
    Ok(report_fault(fault, &mut errors) == 1 && errors.bytes() == said.as_bytes())
}

#[test]
fn a_fault_line_may_be_long_or_cut_short(rt: HostRuntime) -> Result<(), Fault> {
    let long = MergeFault {
        tile: 4_294_967_295,
        line: 18_446_744_073_709_551_615,
        fault: Fault::VertexNotInteger,
    };
    let said =
        "citymerge: tile 4294967295 line 18446744073709551615: a vertex number is not written as a whole number\n";
    assert!(rt; is_said(rt.alloc(), &long, 128, said)?);
    assert!(rt; is_said(rt.alloc(), &long, 4, "city")?);
    Ok(())
}

/// Whether a text of help, or of wrong use, is shown so where so many bytes are taken.
fn is_shown(
    alloc: Global,
    text: &Line,
    is_help: bool,
    room: usize,
    flush_fails: bool,
    shown: &str,
) -> Result<bool, Fault> {
    let mut output = Bin::new(alloc, room, 9, flush_fails)?;
    let is_right = if is_help {
        show_help(text, &mut output) == 0
    } else {
        show_usage(text, &mut output) == 2
    };
    Ok(is_right && output.bytes() == shown.as_bytes())
}

/// Whether all goes right where all is taken, where a flush fails, and where a text is cut short.
fn are_shown(alloc: Global, text: &Line, is_help: bool) -> Result<bool, Fault> {
    Ok(
        is_shown(alloc, text, is_help, 9, false, "help\n")?
            && is_shown(alloc, text, is_help, 9, true, "help\n")?
            && is_shown(alloc, text, is_help, 3, false, "hel")?,
    )
}

#[test]
fn a_failed_text_leaves_the_status(rt: HostRuntime) -> Result<(), Fault> {
    let text = Line::from_vec(b"help\n".to_vec(rt.alloc())?);
    assert!(rt; are_shown(rt.alloc(), &text, true) == Ok(true));
    assert!(rt; are_shown(rt.alloc(), &text, false) == Ok(true));
    Ok(())
}
