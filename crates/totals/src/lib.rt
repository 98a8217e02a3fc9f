// The totals of a book (T-09): what is taken, and exact sums of nominal times W.

#![tactic(auto)]

ghost use Rattle.std.specs.Prelude.{◌≡◌, ◌*◌, ◌≤◌, nat_abs};
ghost use Rattle.totals.specs.Totals.{all_within, taken, Taken};
ghost use Rattle.totals.specs.Sums.{Room, Grown, Added, Summed, Figures};

use amounts::{Amount, Figure};

// The positions of a book at most.
const POSITIONS_MOST: usize = 4_096;

// How far from 0 a nominal may be, in pools.
const NOMINAL_MOST: u64 = 1_000_000;

// How far from 0 a net value W may be.
const VALUE_MOST: u64 = 200_000_000_000_000_000;

// Gains and losses so far, both without a sign; the units may be more than a billion.
#[derive(Clone, Copy)]
pub struct Sums {
    pub gains: Amount,
    pub losses: Amount,
}

// The three figures of a book.
#[derive(Clone, Copy)]
pub struct Totals {
    pub total: Figure,
    pub gains: Figure,
    pub losses: Figure,
}

// Whether each entry is at most so far from 0. A loop: tried as `all`, the proof leaves open that its result is that of the test on each entry.
fn all_within(list: &[i64], most: u64) -> bool
    ensures { result ≡ all_within most list.now }
{
    for entry in list {
        if most < hedges::magnitude(*entry) {
            return false;
        }
    }
    true
}

// Whether the book is taken. The lists are only read.
pub fn is_taken(nominals: &[i64], values: &[i64]) -> bool
    ensures { result ≡ taken nominals.now values.now }
{
    nominals.len() == values.len()
        && nominals.len() <= POSITIONS_MOST
        && all_within(nominals, NOMINAL_MOST)
        && all_within(values, VALUE_MOST)
}

// A product more: neither half of it passes 64 bits.
fn add_product(a: Amount, nominal: u64, value: u64) -> Amount
    requires { Room a × (nominal ≤ 1_000_000) × (value ≤ 200_000_000_000_000_000) }
    ensures { Grown a (nominal * value) result }
{
    Amount {
        billions: a.billions + nominal * (value / amounts::BILLION),
        units: a.units + nominal * (value % amounts::BILLION),
    }
}

// A position more: a gain where nominal and W are both below 0, or neither.
fn add_position(sums: Sums, nominal: i64, value: i64) -> Sums
    requires { Room sums.gains × Room sums.losses × (nat_abs nominal ≤ 1_000_000) × (nat_abs value ≤ 200_000_000_000_000_000) }
    ensures { Added sums nominal value result }
{
    let gains = sums.gains;
    let losses = sums.losses;
    let nominal_size = hedges::magnitude(nominal);
    let value_size = hedges::magnitude(value);
    if hedges::unlike_signs(nominal, value) {
        return Sums {
            gains,
            losses: add_product(losses, nominal_size, value_size),
        };
    }
    Sums {
        gains: add_product(gains, nominal_size, value_size),
        losses,
    }
}

// The gains and the losses of a book that is taken.
fn sum_positions(nominals: &[i64], values: &[i64]) -> Sums
    requires { Taken nominals.now values.now }
    ensures { Summed nominals.now values.now result }
{
    let none = Amount {
        billions: 0,
        units: 0,
    };
    let mut sums = Sums {
        gains: none,
        losses: none,
    };
    for (nominal, value) in nominals.iter().zip(values) {
        sums = add_position(sums, *nominal, *value);
    }
    sums
}

// The three figures of a book that is taken.
pub fn add_up(nominals: &[i64], values: &[i64]) -> Totals
    requires { Taken nominals.now values.now }
    ensures { Figures nominals.now values.now result }
{
    let sums = sum_positions(nominals, values);
    let none = Amount {
        billions: 0,
        units: 0,
    };
    let gains = amounts::carried(sums.gains);
    let losses = amounts::carried(sums.losses);
    Totals {
        total: amounts::net(gains, losses),
        gains: amounts::net(gains, none),
        losses: amounts::net(none, losses),
    }
}
