//! Features that are put on the grid of the first tile, chosen, and written in turn.

use crate::merging::{Asked, PLAIN, expect_table};
use city_feature::Base;

/// The features of an area.
const IN_AREA: Asked = Asked {
    types: "",
    area: "1510,0,1510,100",
    exclude: false,
    base: Base::First,
};

/// All but roads and bridges.
const NO_ROADS: Asked = Asked {
    types: "Road,Bridge",
    area: "",
    exclude: true,
    base: Base::First,
};

/// Vertices are put on the grid of the first tile, and stay in range.
const MOVED: &str = "
HEADER A | FAR_HEADER B => HEADER A FAR_B => [1, 1]
WEST_HEADER WEST_BUILDING | EAST_HEADER EAST_BUILDING => WEST_HEADER WEST_BUILDING EAST_FROM_WEST => [1, 1]
HEADER | NEXT_HEADER LAST_B => HEADER => tile 2 line 2: VertexRange
HEADER | BEFORE_HEADER LAST_B => HEADER BEFORE_LAST_B => [0, 1]
";

/// Equal features are all written.
const TURNS: &str = "
HEADER A1 A2 A3 | HEADER B1 | HEADER C1 C2 => HEADER A1 B1 C1 A2 C2 A3 => [3, 1, 2]
HEADER A1 A1 => HEADER A1 A1 => [2]
HEADER A1 | HEADER A1 A1 | HEADER A1 => HEADER A1 A1 A1 A1 => [1, 2, 1]
";

/// Features are chosen as they are moved.
const CHOSEN: &str = "
HEADER A | FAR_HEADER B => HEADER FAR_B => [0, 1]
";

/// A tile of which nothing is chosen is passed over.
const PASSED_OVER: &str = "
HEADER BRIDGE BRIDGE BRIDGE | HEADER BRIDGE A1 BRIDGE A2 | HEADER B1 BRIDGE BRIDGE => HEADER A1 B1 A2 => [0, 2, 1]
";

#[test]
fn tiles_take_turns(rt: HostRuntime) {
    expect_table(&rt, &PLAIN, MOVED);
    expect_table(&rt, &PLAIN, TURNS);
    expect_table(&rt, &IN_AREA, CHOSEN);
    expect_table(&rt, &NO_ROADS, PASSED_OVER);
}
