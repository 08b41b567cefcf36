//! Tiles with a faulty line.

use crate::merging::{PLAIN, expect_table};

/// A faulty tile ends, and the others are written whole.
const ENDED: &str = "
HEADER A1 A2 | HEADER B1 CUT => HEADER A1 B1 A2 => tile 2 line 3: Syntax
HEADER B1 CUT | HEADER A1 A2 => HEADER B1 A1 A2 => tile 1 line 3: Syntax
";

/// The fault of the lowest tile is told.
const LOWEST: &str = "
HEADER A1 { | HEADER B1 CUT => HEADER A1 B1 => tile 1 line 3: Syntax
HEADER A1 A2 A3 { | HEADER HEADER B1 | HEADER C1 C2 | EMPTY HEADER [[ B1 => HEADER A1 C1 A2 C2 A3 => tile 1 line 5: Syntax
";

/// A tile with no header is told before the headers are joined.
const NO_HEADER: &str = "
HEADER A1 | HALF_HEADER | EMPTY [] | { =>  => tile 3 line 2: NotCityJson
HEADER { | SPACE TAB |  =>  => tile 2 line 0: NoHeader
";

#[test]
fn faulty_lines_are_told(rt: HostRuntime) {
    for table in [ENDED, LOWEST, NO_HEADER] {
        expect_table(&rt, &PLAIN, table);
    }
}
