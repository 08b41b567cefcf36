//! Transforms that are read, those that are refused, and the lesser of two translations.
use crate::grid::expect;
use byte_streams::Fault;
use city_grid::{Transform, least_of, transform};
use city_json::read;
use std::alloc::Global;

fn transform_in(alloc: Global, text: &str) -> Result<Transform, Fault> {
    transform(&read(alloc, text.as_bytes())?)
}

pub(crate) fn transform_of(
    alloc: Global,
    scale: &str,
    translate: &str,
) -> Result<Transform, Fault> {
    let text = format!(in alloc; "{{\"translate\": {translate}, \"scale\": {scale}}}")?;
    transform_in(alloc, &text)
}

fn has_scale(transform: &Transform) -> bool {
    let scale = transform.scale();
    scale.x == scale.y && scale.z.units() == 1_000_000_000_000_000_000_000_000
}

/// The units of its translation.
fn origin_of(transform: &Transform) -> [i128; 3] {
    let origin = transform.translate();
    [origin.x.units(), origin.y.units(), origin.z.units()]
}

fn told(alloc: Global, scale: &str, translate: &str) -> Result<(bool, [i128; 3]), Fault> {
    let read = transform_of(alloc, scale, translate)?;
    Ok((has_scale(&read), origin_of(&read)))
}

#[test]
fn transforms_are_read(rt: HostRuntime) -> Result<(), Fault> {
    let (has_scale, [x, y, z]) = told(rt.alloc(), "[0.001, 1e-3, 1]", "[84710.1, 446846.0, -5.3]")?;
    assert!(rt; has_scale);
    assert!(rt; x == 84_710_100_000_000_000_000_000_000_000);
    assert!(rt; y == 446_846_000_000_000_000_000_000_000_000);
    assert!(rt; z == -5_300_000_000_000_000_000_000_000);
    Ok(())
}

const REFUSED: [(&str, Fault); 12] = [
    (
        r#"{"translate": [0, 0, 0], "scale": [1, 1, 1, 1]}"#,
        Fault::NoTransform,
    ),
    (
        r#"{"translate": [0, 0, 0], "scale": [1, 1]}"#,
        Fault::NoTransform,
    ),
    (
        r#"{"translate": [0, 0], "scale": [1, 1, 1]}"#,
        Fault::NoTransform,
    ),
    (
        r#"{"translate": [0, 0, 0], "scale": "0.001"}"#,
        Fault::NoTransform,
    ),
    (
        r#"{"translate": [1e12, 0, 0], "scale": [0, 1, 1]}"#,
        Fault::Decimal,
    ),
    (
        r#"{"translate": [0, 0, 0], "scale": [1, 1, 1e-25]}"#,
        Fault::Decimal,
    ),
    (
        r#"{"translate": [0, 0, 0], "scale": [-0.001, 1, 1]}"#,
        Fault::ScaleNotPositive,
    ),
    (
        r#"{"translate": [0, 0, 0], "scale": [1, 0.0, 1]}"#,
        Fault::ScaleNotPositive,
    ),
    (
        r#"{"translate": [0, 0, 0], "scale": [1, 1, -0]}"#,
        Fault::ScaleNotPositive,
    ),
    ("null", Fault::NoTransform),
    ("{}", Fault::NoTransform),
    (r#"{"scale": [1, 1, 1]}"#, Fault::NoTransform),
];

#[test]
fn transforms_are_refused(rt: HostRuntime) {
    for (text, fault) in REFUSED.iter() {
        expect(
            &rt,
            transform_in(rt.alloc(), text).err() == Some(*fault),
            text,
        );
    }
}

/// Two translations, and the lesser one on each axis.
const LESSER: [(&str, &str, &str); 4] = [
    (
        "[84710.1, -3, 0.50]",
        "[84800.35, -3.0, 0.5]",
        "[84710.1, -3, 0.5]",
    ),
    ("[1, 5, -9]", "[1.5, -2, -7]", "[1, -2, -9]"),
    (
        "[-1, 5, 9]",
        "[-999999999999, 5.001, 1e-24]",
        "[-999999999999, 5, 1e-24]",
    ),
    (
        "[0, 0, 999999999999]",
        "[1e-24, -1e-24, -0.0]",
        "[0, -1e-24, 0]",
    ),
];

/// Whether the scale stays that of the first.
fn is_least(alloc: Global, one: &str, other: &str, wanted: &str) -> Result<bool, Fault> {
    let (fine, coarse) = ("[0.001, 1, 2]", "[3, 4, 5]");
    let a = transform_of(alloc, fine, one)?;
    let b = transform_of(alloc, coarse, other)?;
    Ok(
        least_of(&a, &b) == transform_of(alloc, fine, wanted)?
            && least_of(&b, &a) == transform_of(alloc, coarse, wanted)?,
    )
}

#[test]
fn the_lesser_translation_is_taken_on_each_axis(rt: HostRuntime) {
    for (one, other, wanted) in LESSER.iter() {
        let is_least = is_least(rt.alloc(), one, other, wanted);
        expect(&rt, is_least == Ok(true), wanted);
    }
}
