// Turns among walks (T-11), on the turn table that a caller lends: records of a walk and its steps left.
// The work is done in `places`, on numbers: these functions copy the steps left of the walks, and call.

#![tactic(auto)]

ghost use Rattle.std.specs.Prelude.{◌≡◌, ◌≤◌, length};
ghost use Rattle.turns.specs.Table.{copied_out, copied_in};
ghost use Rattle.turns.specs.Turns.{turned};

use places::{NotTaken, Served};
use walk::Walk;

// A walk of the table, and its steps left.
#[repr(C)]
#[derive(Clone, Copy)]
pub struct Turn {
    pub walk: Walk,
    pub left: u16,
}

// The steps left of the first walks, copied out.
fn copy_out(table: &[Turn], left: &mut [u16], count: usize)
    requires { (count ≤ length table.now) × (count ≤ length left.old) }
    ensures { left.new ≡ copied_out table.now left.old count }
{
    for i in 0..count {
        left[i] = table[i].left;
    }
}

// The steps left of the first walks, copied in.
fn copy_in(table: &mut [Turn], left: &[u16], count: usize)
    requires { (count ≤ length table.old) × (count ≤ length left.now) }
    ensures { table.new ≡ copied_in table.old left.now count }
{
    for at in 0..count {
        table[at].left = left[at];
    }
}

// Turns of a table, with room for its steps left: these are copied out, served, and copied in again unless the call was refused.
fn serve_with(
    table: &mut [Turn],
    left: &mut [u16],
    place: usize,
    list: &mut [u8],
) -> Result<Served, NotTaken>
    requires { length left.old ≡ 16 }
    ensures { (result ≡ (turned table.old place list.old).answer)
        × ((table.new ≡ (turned table.old place list.old).table)
        × (list.new ≡ (turned table.old place list.old).list)) }
{
    let n = table.len();
    let shown = places::shown(n);
    copy_out(table, left, shown);
    let answer = places::serve_first(left, n, place, list);
    let stored = places::stored(answer, shown);
    copy_in(table, left, stored);
    answer
}

// A call for turns.
pub fn serve(table: &mut [Turn], place: usize, list: &mut [u8]) -> Result<Served, NotTaken>
    ensures { (result ≡ (turned table.old place list.old).answer)
        × ((table.new ≡ (turned table.old place list.old).table)
        × (list.new ≡ (turned table.old place list.old).list)) }
{
    let mut left = [0; 16];
    serve_with(table, &mut left, place, list)
}
