// The table, row by row.
ghost use Rattle.std.specs.Prelude.{◌≡◌, ℕ};
ghost use Rattle.worked_cases.specs.Cases.{table, row_at, AsRuled};

use positions::Stretch;

// A stretch, and whether it holds `event`.
#[derive(Clone, Copy, PartialEq, Eq, Debug)]
pub struct Case {
    pub stretch: Stretch,
    pub event: u32,
    pub inside: bool,
}

const OVER_THE_WRAP: Stretch = Stretch {
    modulus: 65_536,
    from: 65_535,
    to: 1,
};

const OVER_THE_WRAP_OF_8: Stretch = Stretch {
    modulus: 8,
    from: 7,
    to: 2,
};

const EMPTY: Stretch = Stretch {
    modulus: 8,
    from: 5,
    to: 5,
};

const CASES: &[Case] = &[
    Case {
        stretch: OVER_THE_WRAP,
        event: 65_535,
        inside: true, // its first position
    },
    Case {
        stretch: OVER_THE_WRAP,
        event: 0,
        inside: true, // past the wrap
    },
    Case {
        stretch: OVER_THE_WRAP,
        event: 1,
        inside: false, // where it ends
    },
    Case {
        stretch: OVER_THE_WRAP_OF_8,
        event: 7,
        inside: true, // its first position
    },
    Case {
        stretch: OVER_THE_WRAP_OF_8,
        event: 3,
        inside: false, // past its end
    },
    Case {
        stretch: EMPTY,
        event: 5,
        inside: false, // it holds nothing
    },
];

// The whole table.
pub fn worked_cases() -> &'static [Case]
    ensures row_by_row { result.now ≡ table }
    ensures as_the_rule_says { (i : ℕ) → AsRuled (row_at result.now i) }
{
    CASES
}
