// One step back: a node, a tranche's row, all rows, and the premium that is added first.
ghost use Rattle.std.specs.Prelude.{◌≡◌, ℕ, suc, ◌+◌, ◌*◌, ◌≤◌, ◌<◌, length, get_or};
ghost use Rattle.std.specs.Fork.{slice_chunk};
ghost use Rattle.cash.specs.Units.{B};
ghost use Rattle.tree.specs.Backward.{roll_node};
ghost use Rattle.rows.specs.Tables.{tab, grid};
ghost use Rattle.rows.specs.Kernels.{rolled_at, rolled_in, accrued_at, RowFits, RowsFit};

use crate::table::fill_rows;

// What a node is worth one step before a default leads to one figure and survival to another.
fn roll_node(hazard: u64, discount: u64, defaulted: u64, survived: u64) -> u64
    requires { (hazard ≤ B) × (discount ≤ B) × (defaulted ≤ 18 * B) × (survived ≤ 18 * B) }
    ensures { result ≡ roll_node hazard discount defaulted survived }
{
    cash::half(discount * cash::half(hazard * defaulted + (cash::UNITS - hazard) * survived))
}

// One tranche's row one step back, in place from low counts: a count is read before the next one is written.
fn roll(row: &mut [u64], hazards: &[u64], discount: u64, cash: &[u64])
    requires { RowFits row.old hazards.now discount cash.now }
    ensures { row.new
        ≡ tab (length row.old) (rolled_at hazards.now discount cash.now row.old) }
{
    let names = hazards.len();
    for k in 0..names {
        let defaulted = row[k + 1] + cash[k];
        row[k] = roll_node(hazards[k], discount, defaulted, row[k]);
    }
    // no default comes from the last count
    row[names] = roll_node(0, discount, 0, row[names]);
}

// The rows of every tranche and the index one step back.
pub fn roll_all(
    names: usize,
    tranches: usize,
    hazards: &[u64],
    discount: u64,
    cash: &[u64],
    rows: &mut [u64],
)
    requires { RowsFit (suc tranches) names rows.old hazards.now discount cash.now }
    ensures { rows.new
        ≡ grid (suc tranches) (suc names) (rolled_in (suc names) hazards.now discount cash.now rows.old) }
{
    let width = names + 1;
    fill_rows(
        names,
        tranches,
        rows,
        |j: usize, row: &mut [u64]|
            requires { (j * width + width ≤ length cash.now) × RowFits row.now hazards.now discount (slice_chunk cash.now width j) }
            ensures { row.exit.now
                ≡ tab (length row.entry.now) (rolled_at hazards.entry.now discount (slice_chunk cash.entry.now width j) row.entry.now) }
        { roll(row, hazards, discount, &cash[j * width..j * width + width]) },
    );
}

// Adds the premium of an accrual to every entry. Most steps are no premium date.
pub fn accrue(accrual: u64, outstandings: &[u64], rows: &mut [u64])
    requires accrual_most { (accrual ≤ B) × (length outstandings.now ≡ length rows.old) }
    requires outstandings_most { (i : ℕ) → i < length rows.old → get_or outstandings.now i 0 ≤ B }
    requires rows_most { (i : ℕ) → i < length rows.old → get_or rows.old i 0 ≤ 18 * B }
    ensures { rows.new ≡ tab (length rows.old) (accrued_at accrual outstandings.now rows.old) }
{
    if accrual == 0 {
        return;
    }
    for (i, entry) in rows.iter_mut().enumerate() {
        *entry += cash::premium_payment(accrual, outstandings[i]);
    }
}
