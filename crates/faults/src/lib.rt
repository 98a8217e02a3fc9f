// The single checks of a sheet, each a yes or no.

#![tactic(auto)]

ghost use Rattle.std.specs.Prelude.{◌≡◌, [], ◌∷◌, ◌+◌, ◌≤◌, length, get_or, drop, ltb};
ghost use Rattle.sheet.specs.Terms.{bare, terms_of};
ghost use Rattle.sheet.specs.Dates.{next_accrual};
ghost use Rattle.rows.specs.Tables.{any};
ghost use Rattle.refusals.specs.Tests.{pool_bad, periods_bad, lists_bad, attachments_bad, starts_bad, accruals_bad, elapsed_bad};

use cash::UNITS;
use sheet::{Brought, NAMES_MOST, PERIODS_MOST, Pool, STEPS_MOST, TRANCHES_MOST};

// 1: whether the names, steps or tranches are outside their limits.
#[tactic(auto, unfolding(refusals::specs::Tests::pool_bad))]
pub fn pool_outside(pool: Pool) -> bool
    ensures { result ≡ pool_bad (bare pool []) }
{
    !(1..=NAMES_MOST).contains(&pool.names)
        || !(1..=STEPS_MOST).contains(&pool.steps)
        || !(1..=TRANCHES_MOST).contains(&pool.tranches)
}

// 2, of the periods: whether there is none or more than 16, or the hazards are not n for each.
#[tactic(auto, unfolding(refusals::specs::Tests::periods_bad))]
fn periods_differ(brought: &Brought<'_>) -> bool
    requires { brought.now.sheet.names ≤ 125 }
    ensures { result ≡ periods_bad brought.now.sheet }
{
    let periods = brought.starts().len();
    !(1..=PERIODS_MOST).contains(&periods) || brought.hazards().len() != periods * brought.names()
}

// 2: whether one of the sheet's own lists has another length. Few names and tranches, so that as many hazards and one more point fit.
#[tactic(auto, unfolding(refusals::specs::Tests::lists_bad))]
pub fn lists_differ(brought: &Brought<'_>) -> bool
    requires { (brought.now.sheet.names ≤ 125) × (brought.now.sheet.tranches ≤ 8) }
    ensures { result ≡ lists_bad brought.now }
{
    let steps = brought.steps();
    let points = brought.tranches() + 1;
    brought.attachments().len() != points
        || periods_differ(brought)
        || brought.discounts().len() != steps
        || brought.accruals().len() != steps
        || brought.elapsed().len() != steps
        || brought.coupons().len() != points
}

// 4: whether the attachment points do not rise, or one is above the pool.
pub fn attachments_bad(pool: Pool, attachments: &[u64]) -> bool
    requires { length attachments.now ≡ pool.tranches + 1 }
    ensures { result ≡ attachments_bad (bare pool attachments.now) }
{
    lists::any_fall(attachments) || lists::any_above(attachments, UNITS)
}

// 25: whether the first period does not start at step 1, or the starts do not rise, or one is beyond the last step.
#[tactic(auto, unfolding(refusals::specs::Tests::starts_bad))]
pub fn starts_bad(pool: Pool, starts: &[u64]) -> bool
    requires { 1 ≤ length starts.now }
    ensures { result ≡ starts_bad (terms_of pool [] starts.now [] [] [] []) }
{
    starts[0] != 1 || lists::any_fall(starts) || lists::any_above(starts, pool.steps as u64)
}

// 7: whether an accrual or their sum is above its limit, or the last is 0.
pub fn accruals_bad(pool: Pool, accruals: &[u64]) -> bool
    requires { (1 ≤ pool.steps) × (pool.steps ≤ 3650) × (length accruals.now ≡ pool.steps) }
    ensures { result ≡ accruals_bad (terms_of pool [] [] [] [] accruals.now []) }
{
    lists::any_above(accruals, UNITS)
        || 10 * UNITS < accruals.iter().sum()
        || accruals[pool.steps - 1] == 0
}

// The accrual of the next premium date at a step or after it, where `next` is that after it.
fn next_date(accrual: u64, next: u64) -> u64
    ensures { result ≡ next_accrual (accrual ∷ next ∷ []) }
{
    if accrual == 0 { next } else { accrual }
}

// 21: whether an elapsed fraction is above the accrual of the next premium date at its step or after it. From the last step down.
fn elapsed_over(accruals: &[u64], elapsed: &[u64]) -> bool
    requires { length accruals.now ≡ length elapsed.now }
    ensures { result ≡ any (length elapsed.now)
        (λ i. ltb (next_accrual (drop i accruals.now)) (get_or elapsed.now i 0)) }
{
    let mut next = 0;
    for i in (0..elapsed.len()).rev() {
        next = next_date(accruals[i], next);
        if next < elapsed[i] {
            return true;
        }
    }
    false
}

// The same, quick where all fractions are 0, as on nearly every sheet.
pub fn elapsed_bad(pool: Pool, accruals: &[u64], elapsed: &[u64]) -> bool
    requires { (length accruals.now ≡ pool.steps) × (length elapsed.now ≡ pool.steps) }
    ensures { result ≡ elapsed_bad (terms_of pool [] [] [] [] accruals.now elapsed.now) }
{
    lists::any_above(elapsed, 0) && elapsed_over(accruals, elapsed)
}
