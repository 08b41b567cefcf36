//! The jobs that users wait for, as workloads to be timed: `workloads JOB SEED ROUNDS` makes inputs from
//! the seed, gives them to the public calls of the library, changed before each call so that none is
//! made twice, and prints a digest of all that comes of it. The job `all` is each of the others in
//! turn, on small inputs.
#![tactic(auto)]

mod digest;
mod documents;
mod filters;
mod jobs;
mod merges;
mod plan;
mod random;
mod shapes;
mod tally;
mod tile;

use crate::jobs::{JOBS, run};
use crate::plan::Plan;
use std::env;
use std::io::{self, ErrorKind};
use std::sync::Wait;
use std::thread::Threads;

fn main(rt: HostRuntime) -> io::Result<()> {
    let mut words = env::args(&rt)?.skip(1);
    let (Some(job), Some(seed), Some(rounds)) = (words.next(), words.next(), words.next()) else {
        return Err(ErrorKind::InvalidInput.into());
    };
    let (Ok(seed), Ok(rounds)) = (seed.parse::<u32>(), rounds.parse::<u32>()) else {
        return Err(ErrorKind::InvalidInput.into());
    };
    let plan = Plan {
        seed: u64::from(seed),
        rounds,
        is_small: job.as_str() == "all",
    };
    if plan.is_small {
        return show_all(&rt, plan);
    }
    show(&rt, job.as_str(), plan)
}

fn show_all<H>(rt: &H, plan: Plan) -> io::Result<()>
where
    H: AllocGlobal + Print + Threads + Wait + Copy + Send + 'static,
{
    for job in JOBS {
        show(rt, job, plan)?;
    }
    Ok(())
}

/// Runs a job, and prints what its calls came to.
fn show<H>(rt: &H, job: &str, plan: Plan) -> io::Result<()>
where
    H: AllocGlobal + Print + Threads + Wait + Copy + Send + 'static,
{
    let Some(tally) = run(rt, rt.alloc(), job, plan) else {
        return Err(ErrorKind::Other.into());
    };
    let calls = tally.calls;
    let refused = tally.refused;
    let features = tally.features;
    let bytes = tally.bytes;
    let digest = tally.digest;
    println!(rt;
        "{job}: {calls} calls, {refused} refused, {features} features, {bytes} bytes, digest {digest:016x}"
    )
}
