//! How many decimals numbers have, and the units of the last decimal that make up one.

ghost use Rattle.std.specs.Prelude.{◌≡◌, ◌≤◌, nat_le, if◌then◌else◌, Some, None};
ghost use Rattle.xf_num.specs.Number.{scale};

use std::marker::Model;

/// No form has more decimals.
const MOST: u8 = 9;

/// How many decimals numbers have where a form does not choose.
const USUAL: u8 = 6;

/// By the number of decimals.
const SCALES: [u64; 10] = [
    1,
    10,
    100,
    1_000,
    10_000,
    100_000,
    1_000_000,
    10_000_000,
    100_000_000,
    1_000_000_000,
];

/// How many decimals the numbers of a form have: at most 9.
#[derive(Clone, Copy, Debug)]
pub struct Decimals {
    count: u8,
}

impl Model for Decimals {
    ghost use Rattle.std.specs.Prelude.{ℕ, ◌≤◌};

    ghost Value = { ℕ };

    ghost view = { λ d. d.count };

    ghost invariant = { λ d. d.count ≤ 9 };

    ghost inverse = { λ count. record { count = count } };
}

impl Decimals {
    /// So many; none where they are more than 9.
    pub fn new(count: u8) -> Option<Decimals>
        ensures { result ≡ (if nat_le count 9 then Some count else None) }
    {
        if count > MOST {
            return None;
        }
        Some(Decimals { count })
    }

    /// Those of a form that chooses none.
    pub fn usual() -> Decimals
        ensures { result ≡ 6 }
    {
        Decimals { count: USUAL }
    }

    /// How many they are.
    pub fn count(self) -> u8
        ensures value { result ≡ self }
        ensures most { result ≤ 9 }
    {
        self.count
    }

    /// The units in one.
    pub fn units_in_one(self) -> u64
        ensures value { result ≡ scale self }
        ensures least { 1 ≤ result }
        ensures most { result ≤ 1000000000 }
    {
        units_for(self.count)
    }
}

/// The units in one, of a number with so many decimals.
pub fn units_for(decimals: u8) -> u64
    requires { decimals ≤ 9 }
    ensures value { result ≡ scale decimals }
    ensures least { 1 ≤ result }
    ensures most { result ≤ 1000000000 }
{
    SCALES[decimals as usize]
}
