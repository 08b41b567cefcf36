//! `citymerge`: merges, filters and makes streams of CityJSON features.
#![tactic(auto)]

use byte_streams::{Device, MergeFault};
use command_runs::{SystemFiles, answer, buffered, parse_args, report_fault};
use std::env;
use std::process::ExitCode;

fn main(rt: HostRuntime) -> ExitCode {
    let asked = parse_args(rt.alloc(), env::args(&rt));
    let input = Device::new(rt.stdin());
    let mut errors = Device::new(rt.stderr());
    ExitCode::from(match buffered(rt.alloc(), rt.stdout()) {
        Ok(mut output) => answer(
            &rt,
            &SystemFiles::new(rt),
            asked,
            input,
            &mut output,
            &mut errors,
        ),
        Err(fault) => report_fault(&MergeFault::of_no_line(fault), &mut errors),
    })
}
