use crate::digest::{Order, Output};
use crate::documents::run_documents;
use crate::filters::{Chosen, Part, run_filters};
use crate::merges::run_merges;
use crate::plan::Plan;
use crate::shapes::{
    CUT_SHORT, ESCAPED, FRACTION, LONG_REGISTER, MINUS_ZERO, MIXED, PAINTED, PLAIN, REGISTER,
    REPEATED_NAME, SHORT_ARRAYS, SIGNED, SPACED, TERRAIN, TREES,
};
use crate::tally::Tally;
use std::alloc::Global;
use std::sync::Wait;
use std::thread::Threads;

/// The jobs, in the order in which all are run.
pub(crate) const JOBS: [&str; 6] = ["buildings", "area", "small", "awkward", "merge", "cat"];

static BUILDINGS: [Part; 4] = [
    Part {
        shape: PLAIN,
        thousands: 1_000,
        chosen: Chosen::All,
    },
    Part {
        shape: PLAIN,
        thousands: 1_000,
        chosen: Chosen::All,
    },
    Part {
        shape: PLAIN,
        thousands: 1_000,
        chosen: Chosen::All,
    },
    Part {
        shape: SIGNED,
        thousands: 1_000,
        chosen: Chosen::All,
    },
];

static AREA: [Part; 4] = [
    Part {
        shape: PLAIN,
        thousands: 1_000,
        chosen: Chosen::InBox,
    },
    Part {
        shape: MIXED,
        thousands: 1_000,
        chosen: Chosen::InBox,
    },
    Part {
        shape: MIXED,
        thousands: 1_000,
        chosen: Chosen::Ways,
    },
    Part {
        shape: PLAIN,
        thousands: 1_000,
        chosen: Chosen::Parted,
    },
];

static SMALL: [Part; 3] = [
    Part {
        shape: TREES,
        thousands: 600,
        chosen: Chosen::All,
    },
    Part {
        shape: REGISTER,
        thousands: 300,
        chosen: Chosen::All,
    },
    Part {
        shape: LONG_REGISTER,
        thousands: 300,
        chosen: Chosen::All,
    },
];

static AWKWARD: [Part; 9] = [
    Part {
        shape: SPACED,
        thousands: 1_000,
        chosen: Chosen::All,
    },
    Part {
        shape: ESCAPED,
        thousands: 500,
        chosen: Chosen::All,
    },
    Part {
        shape: MINUS_ZERO,
        thousands: 500,
        chosen: Chosen::All,
    },
    Part {
        shape: PAINTED,
        thousands: 500,
        chosen: Chosen::All,
    },
    Part {
        shape: SHORT_ARRAYS,
        thousands: 500,
        chosen: Chosen::All,
    },
    Part {
        shape: TERRAIN,
        thousands: 4_000,
        chosen: Chosen::All,
    },
    Part {
        shape: REPEATED_NAME,
        thousands: 200,
        chosen: Chosen::All,
    },
    Part {
        shape: CUT_SHORT,
        thousands: 200,
        chosen: Chosen::All,
    },
    Part {
        shape: FRACTION,
        thousands: 200,
        chosen: Chosen::All,
    },
];

/// Runs a job; none where there is no such job, or no memory for it.
pub(crate) fn run<H>(rt: &H, alloc: Global, job: &str, plan: Plan) -> Option<Tally>
where
    H: Threads + Wait + Copy + Send + 'static,
{
    let mut output = Output::new(alloc, Order::AsWritten).ok()?;
    match job {
        "merge" => run_merges(rt, alloc, plan, &mut output),
        "cat" => run_documents(alloc, plan, &mut output),
        _ => run_filters(alloc, parts_of(job)?, plan, &mut output),
    }
}

/// The tiles that a job filters.
fn parts_of(job: &str) -> Option<&'static [Part]> {
    match job {
        "buildings" => Some(&BUILDINGS),
        "area" => Some(&AREA),
        "small" => Some(&SMALL),
        "awkward" => Some(&AWKWARD),
        _ => None,
    }
}
