// The table of reinforcing bars: the only place in the programs that has their numbers and areas.
ghost use Rattle.std.specs.Prelude.{◌≡◌, ℕ, ◌<◌, ◌≤◌, MatchOption};
ghost use Rattle.section.specs.Bars.{bars, bar_at, rows, Numbered};

/// A size of bar: its number, and its area in square ticks (a tick is 0.01 inch).
#[derive(Clone, Copy, PartialEq, Eq, Debug)]
pub struct Bar {
    pub number: u32,
    pub area: u32,
}

// The table, in order.
const BARS: [Bar; 11] = [
    Bar {
        number: 3,
        area: 1100,
    },
    Bar {
        number: 4,
        area: 2000,
    },
    Bar {
        number: 5,
        area: 3100,
    },
    Bar {
        number: 6,
        area: 4400,
    },
    Bar {
        number: 7,
        area: 6000,
    },
    Bar {
        number: 8,
        area: 7900,
    },
    Bar {
        number: 9,
        area: 10000,
    },
    Bar {
        number: 10,
        area: 12700,
    },
    Bar {
        number: 11,
        area: 15600,
    },
    Bar {
        number: 14,
        area: 22500,
    },
    Bar {
        number: 18,
        area: 40000,
    },
];

/// The whole table, in order.
pub fn table() -> &'static [Bar]
    ensures { result.now ≡ bars }
{
    &BARS
}

/// The bar at a position of the table, counted from 0.
#[tactic(auto, unfolding(crate::specs::Bars::bar_at))]
pub fn bar_at(position: usize) -> Option<Bar>
    ensures { MatchOption result (rows ≤ position) (λ b. (position < rows) × (b ≡ bar_at position)) }
{
    table().get(position).copied()
}

/// The position in the table of the bar with this number.
pub fn position_of(number: i64) -> Option<usize>
    ensures { MatchOption result ((i : ℕ) → Numbered number i → ⊥) (λ i. Numbered number i) }
{
    table()
        .iter()
        .position(|bar| i64::from(bar.number) == number)
}

/// The bar with this number.
pub fn bar_numbered(number: i64) -> Option<Bar>
    ensures { MatchOption result ((i : ℕ) → Numbered number i → ⊥) (λ b. (i : ℕ) × Numbered number i × (b ≡ bar_at i)) }
{
    position_of(number).and_then(bar_at)
}
