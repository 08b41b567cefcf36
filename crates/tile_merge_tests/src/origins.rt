//! Merges on the grid with the least translation.

use crate::merging::{Asked, expect_table};
use city_feature::Base;

/// All features, on the grid with the least translation.
const LEAST: Asked = Asked {
    types: "",
    area: "",
    exclude: false,
    base: Base::Least,
};

/// Those of an area.
const LEAST_IN_AREA: Asked = Asked {
    types: "",
    area: "1510,0,1510,100",
    exclude: false,
    base: Base::Least,
};

const MOVED: &str = "
FAR_HEADER B | HEADER A => HEADER FAR_B A => [1, 1]
HEADER | BEFORE_HEADER LAST_B => BEFORE_HEADER LAST_B => [0, 1]
ONE_HEADER A | NORTH_HEADER A => HEADER EAST_A NORTH_A => [1, 1]
";

/// The least translation is spelled as in the lowest tile.
const SPELLED: &str = "
ONE_POINT_HEADER | ONE_HEADER => ONE_POINT_HEADER => [0, 0]
FAR_HEADER | ONE_HEADER | ONE_POINT_HEADER => ONE_HEADER => [0, 0, 0]
";

/// Tiles off the least grid are refused from the first on.
const OFF_GRID: &str = "
HEADER | HALF_BEFORE_HEADER =>  => tile 1 line 1: OffGrid
";

/// Features are chosen on the least translation.
const CHOSEN: &str = "
FAR_HEADER B | HEADER A => HEADER FAR_B => [1, 0]
";

#[test]
fn tiles_are_put_on_the_least_translation(rt: HostRuntime) {
    for table in [MOVED, SPELLED, OFF_GRID] {
        expect_table(&rt, &LEAST, table);
    }
    expect_table(&rt, &LEAST_IN_AREA, CHOSEN);
}
