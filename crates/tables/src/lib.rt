// The tables of a walk back, by tranche and count: what a default pays, and what is outstanding.

#![tactic(auto)]

ghost use Rattle.std.specs.Prelude.{◌≡◌, cond, ◌||◌, suc, ◌≤◌, length};
ghost use Rattle.sheet.specs.Terms.{bare};
ghost use Rattle.sheet.specs.Limits.{TranchesWithin};
ghost use Rattle.tree.specs.Sheet.{outstanding_of};
ghost use Rattle.rows.specs.Tables.{tab};
ghost use Rattle.rows.specs.Rows.{row_length, row_of};
ghost use Rattle.rows.specs.Kernels.{pool_losses, payment_of, due_in};

use rows::table::fill_rows;
use sheet::{COUNTS_MOST, Pool};

// What a default pays of one tranche, by the count before it: 0 at the last count, from which none comes.
fn payment_row(pool: Pool, attachments: &[u64], losses: &[u64], tranche: usize, row: &mut [u64])
    requires tranches_within { TranchesWithin (bare pool attachments.now) }
    requires losses_of_pool { losses.now ≡ pool_losses pool.names pool.recovery }
    requires row_of_tranche { (tranche ≤ pool.tranches) × (length row.old ≡ suc pool.names) }
    ensures { row.new ≡ tab (suc pool.names) (payment_of (bare pool attachments.now) tranche) }
{
    let lower = tranches::lower_of(pool, attachments, tranche);
    let upper = tranches::upper_of(pool, attachments, tranche);
    let mut lost = cash::tranche_loss(lower, upper, losses[0]);
    for k in 0..pool.names {
        let next = cash::tranche_loss(lower, upper, losses[k + 1]);
        row[k] = cash::default_payment(lost, next);
        lost = next;
    }
    row[pool.names] = 0;
}

// What a default pays, by tranche and the count before it.
pub fn payments(pool: Pool, attachments: &[u64], table: &mut [u64])
    requires tranches_within { TranchesWithin (bare pool attachments.now) }
    requires table_len { length table.old ≡ row_length (bare pool attachments.now) }
    ensures { table.new ≡ row_of (bare pool attachments.now) (payment_of (bare pool attachments.now)) }
{
    let mut most = [0u64; COUNTS_MOST];
    let counts = pool.names + 1;
    tranches::pool_losses(pool.names, pool.recovery, &mut most[..counts]);
    let losses = &most[..counts];
    fill_rows(
        pool.names,
        pool.tranches,
        table,
        |j, row| payment_row(pool, attachments, losses, j, row),
    );
}

// What is outstanding of one tranche, by count.
fn outstanding_row(pool: Pool, attachments: &[u64], tranche: usize, row: &mut [u64])
    requires tranches_within { TranchesWithin (bare pool attachments.now) }
    requires row_of_tranche { (tranche ≤ pool.tranches) × (length row.old ≡ suc pool.names) }
    ensures { row.new ≡ tab (suc pool.names) (outstanding_of (bare pool attachments.now) tranche) }
{
    for (k, entry) in row.iter_mut().enumerate() {
        *entry = tranches::outstanding_at(pool, attachments, tranche, k);
    }
}

// Whether an accrual or a fraction other than 0 is among those of the count steps before a position.
fn is_due(list: &[u64], position: usize, count: usize) -> bool
    requires { (position ≤ length list.now) × (count ≤ position) }
    ensures { result ≡ due_in list.now position count }
{
    list[position - count..position].iter().any(|x| *x != 0)
}

// What is outstanding, for a walk in which premium is paid: on a date, or up to a default; without any the table stays as it is.
pub fn outstandings_due(
    pool: Pool,
    attachments: &[u64],
    accruals: &[u64],
    elapsed: &[u64],
    position: usize,
    count: usize,
    table: &mut [u64],
)
    requires tranches_within { TranchesWithin (bare pool attachments.now) }
    requires table_len { length table.old ≡ row_length (bare pool attachments.now) }
    requires steps_within { (position ≤ length accruals.now) × (position ≤ length elapsed.now) × (count ≤ position) }
    ensures { table.new
        ≡ cond (due_in accruals.now position count || due_in elapsed.now position count)
        (row_of (bare pool attachments.now) (outstanding_of (bare pool attachments.now))) table.old }
{
    if is_due(accruals, position, count) || is_due(elapsed, position, count) {
        fill_rows(
            pool.names,
            pool.tranches,
            table,
            |j, row| outstanding_row(pool, attachments, j, row),
        );
    }
}
