// What accepted calls write and read of the rows: zeros, a node, and its jump; and what calls answer.

#![tactic(auto)]

ghost use Rattle.std.specs.Prelude.{◌≡◌, suc, length};
ghost use Rattle.sheet.specs.Limits.{TranchesWithin};
ghost use Rattle.rows.specs.Tables.{tab};
ghost use Rattle.rows.specs.Rows.{rows_of};
ghost use Rattle.figures.specs.Nodes.{node_of, jump, Readable};

use hedges::Node;
use sheet::Brought;

pub mod replies; // replies.rt: what accepted calls answer

// What value answers: D, A and W of a tranche at a count.
#[derive(Clone, Copy, Debug, PartialEq, Eq)]
pub struct Worth {
    pub default: u64,
    pub premium: u64,
    pub net: i64,
}

// A row of zeros.
pub fn clear(row: &mut [u64])
    ensures { row.new ≡ tab (length row.old) (λ i. 0) }
{
    row.fill(0);
}

// The loss, D and A of a tranche at a count.
fn node_at(
    brought: &Brought<'_>,
    defaults: &[u64],
    premiums: &[u64],
    tranche: usize,
    count: usize,
) -> Node
    requires tranches_within { TranchesWithin brought.now.sheet }
    requires readable { Readable brought.now (rows_of defaults.now premiums.now) tranche count }
    ensures { result ≡ node_of brought.now.sheet (rows_of defaults.now premiums.now) tranche count }
{
    let place = tranche * (brought.names() + 1) + count;
    Node {
        loss: tranches::loss_at(brought, tranche, count),
        default: defaults[place],
        premium: premiums[place],
    }
}

// J of a tranche at a count.
pub fn jump_at(
    brought: &Brought<'_>,
    defaults: &[u64],
    premiums: &[u64],
    tranche: usize,
    count: usize,
) -> i64
    requires tranches_within { TranchesWithin brought.now.sheet }
    requires readable_here { Readable brought.now (rows_of defaults.now premiums.now) tranche count }
    requires readable_next { Readable brought.now (rows_of defaults.now premiums.now) tranche (suc count) }
    ensures { result ≡ jump brought.now (rows_of defaults.now premiums.now) tranche count }
{
    let here = node_at(brought, defaults, premiums, tranche, count);
    let next = node_at(brought, defaults, premiums, tranche, count + 1);
    let coupon = brought.coupons()[tranche];
    hedges::jump(coupon, here, next)
}
