// Sheets as they are brought, and the refusals 1 to 8, 21 and 25 that look at nothing else.

#![tactic(auto)]

ghost use Rattle.std.specs.Prelude.{◌≡◌, []};
ghost use Rattle.sheet.specs.Limits.{PoolInside, ListsFit};
ghost use Rattle.refusals.specs.Tests.{first, tranche_tests, tree_tests, figure_tests, sheet_tests};

use cash::UNITS;
use refusals::Refusal;
use sheet::{Brought, COUPON_MOST};

// Checks 3 and 4: what the tranches rest on.
fn tranches_refusal(brought: &Brought<'_>) -> Result<(), Refusal>
    requires { ListsFit brought.now }
    ensures { result ≡ first (tranche_tests brought.now.sheet []) }
{
    if UNITS < brought.recovery() {
        return Err(Refusal::Recovery);
    }
    let attachments = brought.attachments();
    if faults::attachments_bad(brought.sheet.pool, attachments) {
        return Err(Refusal::Attachments);
    }
    Ok(())
}

// Checks 25, 5 to 7 and 21: what the tree rests on.
fn tree_refusal(brought: &Brought<'_>) -> Result<(), Refusal>
    requires { PoolInside brought.now.sheet × ListsFit brought.now }
    ensures { result ≡ first (tree_tests brought.now.sheet []) }
{
    let pool = brought.sheet.pool;
    let starts = brought.starts();
    if faults::starts_bad(pool, starts) {
        return Err(Refusal::Periods);
    }
    let hazards = brought.hazards();
    if lists::any_above(hazards, UNITS) {
        return Err(Refusal::Hazard);
    }
    let discounts = brought.discounts();
    if lists::any_outside(discounts, 1, UNITS) {
        return Err(Refusal::Discount);
    }
    let accruals = brought.accruals();
    if faults::accruals_bad(pool, accruals) {
        return Err(Refusal::Accrual);
    }
    let elapsed = brought.elapsed();
    if faults::elapsed_bad(pool, accruals, elapsed) {
        return Err(Refusal::Elapsed);
    }
    Ok(())
}

// Checks 3 to 8, 21 and 25, on a pool within its limits and lists of the right lengths.
fn figures_refusal(brought: &Brought<'_>) -> Result<(), Refusal>
    requires { PoolInside brought.now.sheet × ListsFit brought.now }
    ensures { result ≡ first (figure_tests brought.now []) }
{
    tranches_refusal(brought)?;
    tree_refusal(brought)?;
    let coupons = brought.coupons();
    if lists::any_above(coupons, COUPON_MOST) {
        return Err(Refusal::Coupon);
    }
    Ok(())
}

// Checks 1 to 8 in order, 25 before 5 and 21 after 7. `lent` tells whether a list lent beside the sheet's own has another length;
// it counts only where the pool is within its limits.
pub fn sheet_refusal(brought: &Brought<'_>, lent: bool) -> Result<(), Refusal>
    ensures { result ≡ first (sheet_tests brought.now lent []) }
{
    if faults::pool_outside(brought.sheet.pool) {
        return Err(Refusal::Pool);
    }
    if faults::lists_differ(brought) || lent {
        return Err(Refusal::Length);
    }
    figures_refusal(brought)
}
