//! Shifts between two transforms.
use crate::grid::expect;
use crate::grid::transforms::transform_of;
use byte_streams::Fault;
use city_grid::{Shift, shift_of};
use std::alloc::Global;

/// Transforms of a tile and of the base, and how the tile is moved.
struct Shifted {
    scale: &'static str,
    translate: &'static str,
    base_scale: &'static str,
    base_translate: &'static str,
    shift: Result<(i64, i64, i64), Fault>,
}

const SHIFTED: [Shifted; 8] = [
    Shifted {
        scale: "[0.001, 0.001, 0.001]",
        translate: "[0, -1.5, 0]",
        base_scale: "[0.001, 0.001, 0.001]",
        base_translate: "[0, 0, 0]",
        shift: Ok((0, -1500, 0)),
    },
    Shifted {
        scale: "[0.000001, 0.000001, 0.000001]",
        translate: "[9007199254.740991, 0, 0]",
        base_scale: "[0.000001, 0.000001, 0.000001]",
        base_translate: "[0, 0, 0]",
        shift: Ok((9_007_199_254_740_991, 0, 0)),
    },
    Shifted {
        scale: "[0.000001, 0.000001, 0.000001]",
        translate: "[-9007199254.740991, 0, 0]",
        base_scale: "[0.000001, 0.000001, 0.000001]",
        base_translate: "[0, 0, 0]",
        shift: Ok((-9_007_199_254_740_991, 0, 0)),
    },
    Shifted {
        scale: "[0.000001, 0.000001, 0.000001]",
        translate: "[9007199254.740992, 0, 0]",
        base_scale: "[0.000001, 0.000001, 0.000001]",
        base_translate: "[0, 0, 0]",
        shift: Err(Fault::ShiftRange),
    },
    Shifted {
        scale: "[0.000001, 0.000001, 0.000001]",
        translate: "[9007199254.740992, 0, 0.0000005]",
        base_scale: "[0.000001, 0.000001, 0.000001]",
        base_translate: "[0, 0, 0]",
        shift: Err(Fault::OffGrid),
    },
    Shifted {
        scale: "[0.001, 0.001, 0.001]",
        translate: "[0.0005, 0, 0]",
        base_scale: "[0.001, 0.001, 0.001]",
        base_translate: "[0, 0, 0]",
        shift: Err(Fault::OffGrid),
    },
    Shifted {
        scale: "[0.001, 0.001, 0.001]",
        translate: "[0.0005, 0, 0]",
        base_scale: "[0.001, 0.001, 0.01]",
        base_translate: "[0, 0, 0]",
        shift: Err(Fault::ScaleDiffers),
    },
    Shifted {
        scale: "[0.001, 0.001, 0.001]",
        translate: "[84800.35, 0, 0]",
        base_scale: "[1e-3, 0.0010, 1.0E-3]",
        base_translate: "[84710.1, 0, 0]",
        shift: Ok((90250, 0, 0)),
    },
];

fn is_shifted(alloc: Global, row: &Shifted) -> Result<bool, Fault> {
    let tile = transform_of(alloc, row.scale, row.translate)?;
    let base = transform_of(alloc, row.base_scale, row.base_translate)?;
    let found = shift_of(&tile, &base);
    Ok(match row.shift {
        Ok((x, y, z)) => found.is_ok() && found.ok() == Shift::new(x, y, z),
        Err(fault) => found.err() == Some(fault),
    })
}

#[test]
fn shifts_are_whole_steps(rt: HostRuntime) {
    for row in SHIFTED.iter() {
        expect(&rt, is_shifted(rt.alloc(), row) == Ok(true), row.translate);
    }
}
