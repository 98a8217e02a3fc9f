// What a tranche has lost and has outstanding, by the count of defaults, and the points between which it loses. Tranche r is the index.

#![tactic(auto)]

ghost use Rattle.std.specs.Prelude.{◌≡◌, suc, ◌*◌, ◌/◌, ◌≤◌, ◌<◌, length};
ghost use Rattle.cash.specs.Units.{B};
ghost use Rattle.sheet.specs.Terms.{bare};
ghost use Rattle.sheet.specs.Limits.{TranchesWithin};
ghost use Rattle.tree.specs.Sheet.{loss_of, outstanding_of};
ghost use Rattle.rows.specs.Kernels.{pool_losses, lower_of, upper_of};

use sheet::{Brought, Pool};

// M(k) of a tranche.
pub fn loss_at(brought: &Brought<'_>, tranche: usize, count: usize) -> u64
    requires tranches_within { TranchesWithin brought.now.sheet }
    requires node_inside { (tranche ≤ brought.now.sheet.tranches) × (count ≤ brought.now.sheet.names) }
    ensures { result ≡ loss_of brought.now.sheet tranche count }
{
    let loss = cash::pool_loss(brought.names(), brought.recovery(), count);
    if tranche < brought.tranches() {
        let attachments = brought.attachments();
        cash::tranche_loss(attachments[tranche], attachments[tranche + 1], loss)
    } else {
        loss
    }
}

// O(k) of a tranche.
pub fn outstanding_at(pool: Pool, attachments: &[u64], tranche: usize, count: usize) -> u64
    requires tranches_within { TranchesWithin (bare pool attachments.now) }
    requires node_inside { (tranche ≤ pool.tranches) × (count ≤ pool.names) }
    ensures { result ≡ outstanding_of (bare pool attachments.now) tranche count }
{
    let loss = cash::pool_loss(pool.names, pool.recovery, count);
    let recovered = cash::pool_recovery(pool.names, pool.recovery, count);
    if pool.tranches <= tranche {
        cash::index_outstanding(loss, recovered)
    } else {
        cash::tranche_outstanding(
            attachments[tranche],
            attachments[tranche + 1],
            loss,
            recovered,
        )
    }
}

// How often the divisor is in a remainder to which less than one more was added: 1 once it has reached it.
fn whole_in(rest: u64, divisor: u64) -> u64
    requires { (0 < divisor) × (rest < 2 * divisor) }
    ensures { result ≡ rest / divisor }
{
    u64::from(divisor <= rest)
}

// L(k) of every count. Each comes from the one before, with the remainder kept, which is quicker than a division each.
pub fn pool_losses(names: usize, recovery: u64, losses: &mut [u64])
    requires { (0 < names) × (names ≤ 125) × (recovery ≤ B) × (length losses.old ≡ suc names) }
    ensures { losses.new ≡ pool_losses names recovery }
{
    let divisor = names as u64;
    let whole = (cash::UNITS - recovery) / divisor;
    let part = (cash::UNITS - recovery) % divisor;
    let mut loss = 0;
    let mut rest = 0;
    for at_count in losses.iter_mut() {
        *at_count = loss;
        rest += part;
        let more = whole_in(rest, divisor);
        loss += whole + more;
        rest -= more * divisor;
    }
}

// The point from which a tranche loses. The index loses from the first loss on.
pub fn lower_of(pool: Pool, attachments: &[u64], tranche: usize) -> u64
    requires tranches_within { TranchesWithin (bare pool attachments.now) }
    requires tranche_le_tranches { tranche ≤ pool.tranches }
    ensures { result ≡ lower_of (bare pool attachments.now) tranche }
{
    if tranche < pool.tranches {
        attachments[tranche]
    } else {
        0
    }
}

// The point up to which it loses. The index loses up to all that is not recovered.
pub fn upper_of(pool: Pool, attachments: &[u64], tranche: usize) -> u64
    requires tranches_within { TranchesWithin (bare pool attachments.now) }
    requires tranche_le_tranches { tranche ≤ pool.tranches }
    ensures { result ≡ upper_of (bare pool attachments.now) tranche }
{
    if tranche < pool.tranches {
        attachments[tranche + 1]
    } else {
        cash::UNITS - pool.recovery
    }
}
