// Text of a listing (document 01, 'Deck and printing program'), written into a lent buffer from a place on.
// Each function answers the place after what it wrote.

#![tactic(auto)]

ghost use Rattle.std.specs.Prelude.{◌+◌, ◌≤◌, pos, [], ◌∷◌, length};
ghost use Rattle.lines.specs.Text.{Wrote, decimal, signed, field};

use hedges::magnitude;

// Copies text.
pub fn put_bytes(out: &mut [u8], at: usize, text: &[u8]) -> usize
    requires { at + length text.now ≤ length out.old }
    ensures { Wrote out.old at text.now out.new result }
{
    let end = at + text.len();
    out[at..end].copy_from_slice(text);
    end
}

// Writes n in decimal, the leading digits first.
pub fn put_decimal(out: &mut [u8], at: usize, n: u64) -> usize
    requires { at + length (decimal n) ≤ length out.old }
    ensures { Wrote out.old at (decimal n) out.new result }
{
    if n < 10 {
        out[at] = 48 + n as u8;
        at + 1
    } else {
        let last = put_decimal(out, at, n / 10);
        out[last] = 48 + (n % 10) as u8;
        last + 1
    }
}

// Writes x in decimal, with a minus sign if it is negative.
pub(crate) fn put_signed(out: &mut [u8], at: usize, x: i64) -> usize
    requires { at + length (signed x) ≤ length out.old }
    ensures { Wrote out.old at (signed x) out.new result }
{
    if x < 0 {
        out[at] = b'-';
        put_decimal(out, at + 1, magnitude(x))
    } else {
        put_decimal(out, at, magnitude(x))
    }
}

// Writes a signed field: a space and x.
pub fn put_field(out: &mut [u8], at: usize, x: i64) -> usize
    requires { at + length (field x) ≤ length out.old }
    ensures { Wrote out.old at (field x) out.new result }
{
    out[at] = b' ';
    put_signed(out, at + 1, x)
}

// Writes an unsigned field: a space and n. It is no case of put_field: an n from 2^63 on is no i64.
pub fn put_count(out: &mut [u8], at: usize, n: u64) -> usize
    requires { at + length (field (pos n)) ≤ length out.old }
    ensures { Wrote out.old at (field (pos n)) out.new result }
{
    out[at] = b' ';
    put_decimal(out, at + 1, n)
}

// Ends a line with byte 0A.
pub fn put_end(out: &mut [u8], at: usize) -> usize
    requires { at + 1 ≤ length out.old }
    ensures { Wrote out.old at (10 ∷ []) out.new result }
{
    out[at] = 10;
    at + 1
}
