// Numbers of more than 64 bits (T-09), in two: billions and units.

#![tactic(auto)]

ghost use Rattle.std.specs.Prelude.{◌≡◌, ◌+◌, ◌≤◌, true, false, ◌+ℤ◌, length};
ghost use Rattle.lines.specs.Text.{Wrote, decimal, signed, field};
ghost use Rattle.hedges.specs.Hedges.{with_sign};
ghost use Rattle.amounts.specs.Amounts.{size_of, Carried, figure_of, Proper, Shows, padded};

pub const BILLION: u64 = 1_000_000_000;

// A number without a sign, of more than 64 bits: the order of its fields is that of numbers.
#[derive(Clone, Copy, PartialEq, Eq, PartialOrd, Ord)]
pub struct Amount {
    pub billions: u64,
    pub units: u64,
}

// A number, and whether it is below 0: i64 has no room for it, and in i128 there would be no carry and no borrow for must-fail/ to break
// (carried_at_a_hundred_million, borrowed_twice), nor the nine digits (eight_digits, one_billion_lost).
#[derive(Clone, Copy)]
pub struct Figure {
    pub below: bool,
    pub size: Amount,
}

// The same number with less than a billion units.
pub fn carried(a: Amount) -> Amount
    requires { a.billions ≤ 1_000_000_000_000_000_000 }
    ensures { (size_of result ≡ size_of a) × Carried result }
{
    Amount {
        billions: a.billions + a.units / BILLION,
        units: a.units % BILLION,
    }
}

// What is left of a when b is taken off.
fn difference(a: Amount, b: Amount) -> Amount
    requires { Carried a × Carried b × (size_of b ≤ size_of a) }
    ensures { (size_of result + size_of b ≡ size_of a) × Carried result }
{
    if a.units < b.units {
        return Amount {
            billions: a.billions - b.billions - 1,
            units: a.units + BILLION - b.units,
        };
    }
    Amount {
        billions: a.billions - b.billions,
        units: a.units - b.units,
    }
}

// a less b.
pub fn net(a: Amount, b: Amount) -> Figure
    requires { Carried a × Carried b }
    ensures { Shows (with_sign false (size_of a) +ℤ with_sign true (size_of b)) result }
{
    if a < b {
        return Figure {
            below: true,
            size: difference(b, a),
        };
    }
    Figure {
        below: false,
        size: difference(a, b),
    }
}

// Writes the last digits of n, so many, be they zeros: by a call for those before the last, which says where it stands.
fn put_padded(out: &mut [u8], at: usize, digits: usize, n: u64) -> usize
    requires { at + digits ≤ length out.old }
    ensures { Wrote out.old at (padded digits n) out.new result }
{
    if digits < 1 {
        at
    } else {
        let last = put_padded(out, at, digits - 1, n / 10);
        out[last] = 48 + (n % 10) as u8;
        last + 1
    }
}

// Writes a number in decimal: behind billions the units have nine digits.
fn put_amount(out: &mut [u8], at: usize, a: Amount) -> usize
    requires { Carried a × (at + length (decimal (size_of a)) ≤ length out.old) }
    ensures { Wrote out.old at (decimal (size_of a)) out.new result }
{
    let billions = a.billions;
    let units = a.units;
    if billions < 1 {
        lines::put_decimal(out, at, units)
    } else {
        let last = lines::put_decimal(out, at, billions);
        put_padded(out, last, 9, units)
    }
}

// Writes a figure in decimal, behind a minus sign where it is below 0.
fn put_signed(out: &mut [u8], at: usize, figure: Figure) -> usize
    requires { Proper figure × (at + length (signed (figure_of figure)) ≤ length out.old) }
    ensures { Wrote out.old at (signed (figure_of figure)) out.new result }
{
    let size = figure.size;
    if figure.below {
        out[at] = b'-';
        put_amount(out, at + 1, size)
    } else {
        put_amount(out, at, size)
    }
}

// Writes a field: a space and the figure.
pub fn put_figure(out: &mut [u8], at: usize, figure: Figure) -> usize
    requires { Proper figure × (at + length (field (figure_of figure)) ≤ length out.old) }
    ensures { Wrote out.old at (field (figure_of figure)) out.new result }
{
    out[at] = b' ';
    put_signed(out, at + 1, figure)
}
