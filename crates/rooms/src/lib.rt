// The calls of the walk, lent rows of the right length.

#![tactic(auto)]

ghost use Rattle.std.specs.Prelude.{◌≡◌, ◌+◌, min, length};
ghost use Rattle.rows.specs.Rows.{rows_of, row_length};
ghost use Rattle.figures.specs.Answer.{done_answer, position_answer, worth_answer, ratio_answer};
ghost use Rattle.walk.specs.Calls.{replied};
ghost use Rattle.answers.specs.OrderAnswers.{answer_said};
ghost use Rattle.machine.specs.Rooms.{
  open_in_rooms,
  back_in_rooms,
  value_in_rooms,
  ratio_in_rooms,
  said_beside,
  distribution_in_row,
};

use answers::{OrderRefusal, Told};
use refusals::Refusal;
use sheet::{Brought, COUNTS_MOST, NAMES_MOST, ROW_MOST};
use walk::{Reply, Walk, Worth};

// How many numbers of a room are lent: those of the sheet's rows. All of it where they are more, whose pool is refused.
fn row_size(brought: &Brought<'_>) -> usize
    ensures { result ≡ min (row_length brought.now.sheet) 1134 }
{
    let tranches = brought.tranches();
    let names = brought.names();
    if ROW_MOST <= tranches {
        return ROW_MOST;
    }
    if ROW_MOST <= names {
        return ROW_MOST;
    }
    let size = (tranches + 1) * (names + 1);
    if ROW_MOST < size {
        return ROW_MOST;
    }
    size
}

// The same of the forward row.
fn forward_size(names: usize) -> usize
    ensures { result ≡ min (names + 1) 126 }
{
    if NAMES_MOST < names {
        return COUNTS_MOST;
    }
    names + 1
}

// Open on the rooms.
pub fn open(
    walk: Walk,
    brought: &Brought<'_>,
    register: &[u8],
    defaults: &mut [u64],
    premiums: &mut [u64],
) -> Reply<()>
    requires { (length defaults.old ≡ 1134) × (length premiums.old ≡ 1134) }
    ensures { replied done_answer result defaults.new premiums.new
        ≡ open_in_rooms brought.now register.now walk
        (rows_of defaults.old premiums.old) }
{
    let size = row_size(brought);
    walk.open(
        brought,
        register,
        &mut defaults[..size],
        &mut premiums[..size],
    )
}

// Back on the rooms.
pub fn back(
    walk: Walk,
    brought: &Brought<'_>,
    register: &[u8],
    defaults: &mut [u64],
    premiums: &mut [u64],
    count: usize,
) -> Reply<usize>
    requires { (length defaults.old ≡ 1134) × (length premiums.old ≡ 1134) }
    ensures { replied position_answer result defaults.new premiums.new
        ≡ back_in_rooms brought.now register.now walk
        (rows_of defaults.old premiums.old) count }
{
    let size = row_size(brought);
    walk.back(
        brought,
        register,
        &mut defaults[..size],
        &mut premiums[..size],
        count,
    )
}

// Value on the rooms.
pub fn value(
    walk: Walk,
    brought: &Brought<'_>,
    register: &[u8],
    defaults: &[u64],
    premiums: &[u64],
    tranche: usize,
    count: usize,
) -> Reply<Worth>
    requires { (length defaults.now ≡ 1134) × (length premiums.now ≡ 1134) }
    ensures { replied worth_answer result defaults.now premiums.now
        ≡ value_in_rooms brought.now register.now walk
        (rows_of defaults.now premiums.now) tranche count }
{
    let size = row_size(brought);
    walk.value(
        brought,
        register,
        &defaults[..size],
        &premiums[..size],
        tranche,
        count,
    )
}

// Hedge ratio on the rooms.
pub fn hedge_ratio(
    walk: Walk,
    brought: &Brought<'_>,
    register: &[u8],
    defaults: &[u64],
    premiums: &[u64],
    tranche: usize,
    count: usize,
) -> Reply<i64>
    requires { (length defaults.now ≡ 1134) × (length premiums.now ≡ 1134) }
    ensures { replied ratio_answer result defaults.now premiums.now
        ≡ ratio_in_rooms brought.now register.now walk
        (rows_of defaults.now premiums.now) tranche count }
{
    let size = row_size(brought);
    walk.hedge_ratio(
        brought,
        register,
        &defaults[..size],
        &premiums[..size],
        tranche,
        count,
    )
}

// Forward, and what it says of a count. 14 comes after the call's own refusals, and leaves the row as they do: it is judged on what is only read.
pub fn forward(
    brought: &Brought<'_>,
    register: &[u8],
    row: &mut [u64],
    steps: usize,
    count: usize,
) -> Result<Told, OrderRefusal>
    requires { length row.old ≡ 126 }
    ensures { said_beside (answer_said result) row.new
        ≡ distribution_in_row brought.now register.now row.old steps count }
{
    let names = brought.names();
    let size = forward_size(names);
    if names < count {
        walk::judge_forward(brought, register, &row[..size], steps)?;
        return Err(Refusal::OffTree.into());
    }
    walk::forward(brought, register, &mut row[..size], steps)?;
    Ok(Told::Probability(row[count]))
}
