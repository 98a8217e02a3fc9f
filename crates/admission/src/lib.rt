// Whether a call is admitted: the checks 1 to 12 in order, for any sheet, numbers, register, walk and rows.

#![tactic(auto)]

ghost use Rattle.std.specs.Prelude.{◌≡◌, false, []};
ghost use Rattle.sheet.specs.Brought.{without_lists};
ghost use Rattle.refusals.specs.Tests.{pool_bad, first};
ghost use Rattle.rows.specs.Rows.{rows_of};
ghost use Rattle.admission.specs.LentTests.{rows_bad, row_bad, off_walk, ten_tests, walk_tests};

use refusals::Refusal;
use register::Status;
use sheet::{Brought, NAMES_MOST, Pool, TRANCHES_MOST};

// 2: whether the register or a row has another length. Of a pool outside its limits, which is refused before, it says nothing.
pub fn rows_differ(pool: Pool, register: &[u8], defaults: &[u64], premiums: &[u64]) -> bool
    ensures { pool_bad (without_lists pool).sheet ≡ false →
        result ≡ rows_bad (without_lists pool) register.now (rows_of defaults.now premiums.now) }
{
    if NAMES_MOST < pool.names || TRANCHES_MOST < pool.tranches {
        return true;
    }
    let size = (pool.tranches + 1) * (pool.names + 1);
    register.len() != 256 || defaults.len() != size || premiums.len() != size
}

// The same for the row of forward.
pub fn row_differs(pool: Pool, register: &[u8], row: &[u64]) -> bool
    ensures { pool_bad (without_lists pool).sheet ≡ false →
        result ≡ row_bad (without_lists pool) register.now row.now }
{
    NAMES_MOST < pool.names || register.len() != 256 || row.len() != pool.names + 1
}

// 1 to 10 with 21 and 25. `lent` tells whether a list lent beside the sheet's own has another length.
pub fn to_ten(brought: &Brought<'_>, register: &[u8], lent: bool) -> Result<(), Refusal>
    ensures { result ≡ first (ten_tests brought.now register.now lent []) }
{
    checks::sheet_refusal(brought, lent)?;
    match register::status(register, brought.number()) {
        Status::Withdrawn => Err(Refusal::Withdrawn),
        Status::Unissued => Err(Refusal::Unissued),
        Status::Live => Ok(()),
    }
}

// 11: whether a walk is closed, of another number, or beyond the last step.
#[tactic(auto, unfolding(crate::specs::LentTests::off_walk))]
fn off_walk(is_open: bool, number: u8, position: usize, brought: &Brought<'_>) -> bool
    ensures { result ≡ off_walk brought.now is_open number position }
{
    !is_open || number != brought.number() || brought.steps() < position
}

// 1 to 12.
pub fn to_twelve(
    is_open: bool,
    number: u8,
    position: usize,
    brought: &Brought<'_>,
    register: &[u8],
    defaults: &[u64],
    premiums: &[u64],
) -> Result<(), Refusal>
    ensures { result
        ≡ first (walk_tests brought.now register.now is_open number position
        (rows_of defaults.now premiums.now) []) }
{
    let lent = rows_differ(brought.sheet.pool, register, defaults, premiums);
    to_ten(brought, register, lent)?;
    if off_walk(is_open, number, position, brought) {
        return Err(Refusal::NoWalk);
    }
    if ceilings::is_soiled(brought, defaults, premiums, position) {
        return Err(Refusal::OverCeiling);
    }
    Ok(())
}
