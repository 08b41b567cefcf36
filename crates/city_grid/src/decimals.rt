//! Decimals, exactly, in units of 10^-24.
ghost use Rattle.std.specs.Prelude.{◌≡◌, ◌<◌, unsigned_abs};
ghost use Rattle.city_grid.specs.Decimal.{decimal_bound, signed};

pub(crate) mod digits;
pub(crate) mod reader;

use std::marker::Model;

/// A decimal number, in units of 10^-24 and below 10^36 of them in size.
#[derive(Clone, Copy, Debug, PartialEq, Eq)]
pub struct Decimal {
    units: i128,
}

impl Model for Decimal {
    ghost use Rattle.std.specs.Prelude.{ℤ, ◌<◌, unsigned_abs};
    ghost use Rattle.city_grid.specs.Decimal.{decimal_bound};

    ghost Value = { ℤ };

    ghost view = { λ decimal. decimal.units };

    ghost invariant = { λ decimal. unsigned_abs decimal.units < decimal_bound };

    ghost inverse = { λ units. record { units = units } };
}

impl Decimal {
    /// The decimal of a sign and a size in units of 10^-24.
    pub(crate) fn with_sign(negative: bool, size: u128) -> Decimal
        requires { size < decimal_bound }
        ensures { result ≡ signed negative size }
    {
        let size = size as i128;
        let units = if negative { -size } else { size };
        Decimal { units }
    }

    /// How many units of 10^-24 it has.
    pub fn units(&self) -> i128
        ensures value { result ≡ self.now }
        ensures small { unsigned_abs result < decimal_bound }
    {
        self.units
    }
}
