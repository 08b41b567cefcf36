//! The compact text of a feature.
ghost use Rattle.std.specs.Prelude.{◌≡◌, IfOk, IfErr};
ghost use Rattle.city_json.specs.Compact.{compact};
ghost use Rattle.city_json.specs.Tree.{tree};

use crate::features::values::Feature;
use byte_streams::{Fault, Line};
use city_json::print;
use std::alloc::Global;

/// The compact text of the feature, with no newline. The only fault is [`Fault::Memory`].
pub fn line(alloc: Global, feature: &Feature) -> Result<Line, Fault>
    ensures ok { IfOk result (λ line. line ≡ compact (tree feature.now.json)) }
    ensures fault { IfErr result (λ fault. fault ≡ Fault.Memory) }
{
    let mut line = Line::new(alloc);
    print(feature.json(), &mut line)?;
    Ok(line)
}
