//! Headers that are joined, and those that do not fit.

use crate::merging::{PLAIN, expect_table};

const ALONE: &str = "
HEADER => HEADER => [0]
HEADER | HEADER => HEADER => [0, 0]
";

/// A scale is written as the first tile spells it.
const SCALES: &str = "
HEADER | POWER_HEADER => HEADER => [0, 0]
POWER_HEADER | HEADER => POWER_HEADER => [0, 0]
";

/// Tiles off the grid of the first are refused.
const OFF_GRID: &str = "
HEADER A | HALF_HEADER A =>  => tile 2 line 1: OffGrid
HEADER | COARSE_HEADER =>  => tile 2 line 1: ScaleDiffers
FINE_HEADER | FINE_FAR_HEADER =>  => tile 2 line 1: ShiftRange
HEADER | HEADER | EMPTY SPACE COARSE_HEADER | HALF_HEADER =>  => tile 3 line 3: ScaleDiffers
";

/// Reference systems are the same or in no tile.
const SYSTEMS: &str = "
DUTCH_HEADER | OLD_DUTCH_HEADER =>  => tile 2 line 1: CrsDiffers
DUTCH_HEADER | HEADER =>  => tile 2 line 1: CrsDiffers
HEADER | DUTCH_HEADER =>  => tile 2 line 1: CrsDiffers
";

/// The extensions of all tiles are joined.
const EXTENSIONS: &str = "
EXTENSION_A_HEADER | EXTENSIONS_B_A_HEADER => EXTENSIONS_A_B_HEADER => [0, 0]
EXTENSION_A_HEADER | OTHER_EXTENSION_A_HEADER =>  => tile 2 line 1: ExtensionClash
HEADER | EXTENSION_A_HEADER | EXTENSIONS_B_A_HEADER | EXTENSIONS_C_B_HEADER => EXTENSIONS_A_B_C_HEADER => [0, 0, 0, 0]
";

/// The extent of the first tile is left out.
const EXTENT: &str = "
EXTENT_HEADER => TITLE_HEADER => [0]
";

/// Headers that cannot be taken.
const REFUSED: &str = "
OLD_HEADER =>  => tile 1 line 1: Version
HEADER | GRIDLESS_HEADER | OLD_HEADER =>  => tile 2 line 1: NoTransform
HEADER | HALF_HEADER | TAB FLAT_HEADER =>  => tile 3 line 2: ScaleNotPositive
TEMPLATES_HEADER | HEADER =>  => tile 2 line 1: TemplatesDiffer
";

#[test]
fn headers_are_joined_or_refused(rt: HostRuntime) {
    for table in [
        ALONE, SCALES, OFF_GRID, SYSTEMS, EXTENSIONS, EXTENT, REFUSED,
    ] {
        expect_table(&rt, &PLAIN, table);
    }
}
