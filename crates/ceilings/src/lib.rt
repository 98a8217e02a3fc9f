// The search for an entry of a walk's rows over its ceiling.

#![tactic(auto)]

ghost use Rattle.std.specs.Prelude.{◌≡◌, ◌||◌, suc, ◌+◌, ◌-◌, ◌*◌, ◌≤◌, length, drop, ltb};
ghost use Rattle.sheet.specs.Limits.{TranchesWithin, TermsWithin};
ghost use Rattle.cash.specs.Units.{B};
ghost use Rattle.sheet.specs.Terms.{sum_of, bare};
ghost use Rattle.tree.specs.Sheet.{default_most};
ghost use Rattle.rows.specs.Tables.{entry, any};
ghost use Rattle.rows.specs.Rows.{row_length, soiled};
ghost use Rattle.rows.specs.Kernels.{pool_losses};

use sheet::{Brought, COUNTS_MOST, Pool};

// The accruals after a step.
fn accruals_after(accruals: &[u64], position: usize) -> u64
    requires { sum_of accruals.now ≤ 10 * B }
    ensures { result ≡ sum_of (drop position accruals.now) }
{
    accruals[position.min(accruals.len())..].iter().sum()
}

// The ceiling of a premium leg at the last count: the accruals after a step, and two units for each step to come.
fn premium_most(pool: Pool, accruals: &[u64], position: usize) -> u64
    requires { (sum_of accruals.now ≤ 10 * B) × (pool.steps ≤ 3650) }
    ensures { (result ≡ sum_of (drop position accruals.now) + 2 * (pool.steps - position)) × (result ≤ 11 * B) }
{
    let to_come = pool.steps.saturating_sub(position);
    accruals_after(accruals, position) + 2 * (to_come as u64)
}

// Whether an entry of one of the rows is over its ceiling: a default leg over what its tranche has left to lose, a premium leg over `most` and a unit
// for each name that is left. The first one ends the search.
fn any_over(
    pool: Pool,
    attachments: &[u64],
    losses: &[u64],
    most: u64,
    defaults: &[u64],
    premiums: &[u64],
) -> bool
    requires tranches_within { TranchesWithin (bare pool attachments.now) × (losses.now ≡ pool_losses pool.names pool.recovery) × (most ≤ 11 * B) }
    requires defaults_len { (length defaults.now ≡ row_length (bare pool attachments.now))
        × (length premiums.now ≡ row_length (bare pool attachments.now)) }
    ensures { result
        ≡ any (suc pool.tranches) (λ j. any (suc pool.names) (λ k.
        ltb (default_most (bare pool attachments.now) j k) (entry (suc pool.names) defaults.now j k)
        || ltb (most + (pool.names - k)) (entry (suc pool.names) premiums.now j k))) }
{
    let mut found = false;
    let mut place = 0;
    'search: for j in 0..=pool.tranches {
        let lower = tranches::lower_of(pool, attachments, j);
        let upper = tranches::upper_of(pool, attachments, j);
        for (k, &loss) in losses.iter().enumerate() {
            let left = cash::left_to_lose(lower, upper, loss);
            if left < defaults[place] {
                found = true;
                break 'search;
            }
            if most + ((pool.names - k) as u64) < premiums[place] {
                found = true;
                break 'search;
            }
            place += 1;
        }
    }
    found
}

// Whether the rows at a position hold an entry over its ceiling.
pub fn is_soiled(brought: &Brought<'_>, defaults: &[u64], premiums: &[u64], position: usize) -> bool
    requires terms_within { TermsWithin brought.now.sheet }
    requires defaults_len { (length defaults.now ≡ row_length brought.now.sheet)
        × (length premiums.now ≡ row_length brought.now.sheet) }
    ensures { result ≡ soiled brought.now.sheet position defaults.now premiums.now }
{
    let pool = brought.sheet.pool;
    let attachments = brought.attachments();
    let accruals = brought.accruals();
    let mut room = [0u64; COUNTS_MOST];
    let losses = &mut room[..pool.names + 1];
    tranches::pool_losses(pool.names, pool.recovery, losses);
    let most = premium_most(pool, accruals, position);
    any_over(pool, attachments, losses, most, defaults, premiums)
}
