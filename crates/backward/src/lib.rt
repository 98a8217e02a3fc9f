// The rows of a walk, several steps back, by tables that are lent.

#![tactic(auto)]

ghost use Rattle.std.specs.Prelude.{◌≡◌, ℕ, length, get_or};
ghost use Rattle.tree.specs.Sheet.{default_of, premium_of};
ghost use Rattle.rows.specs.Rows.{row_length, rolled_back};
ghost use Rattle.rows.specs.Rollable.{Rollable};

use elapsed::earn;
use periods::hazards_from;
use rows::step::{accrue, roll_all};
use sheet::Brought;
use tables::{outstandings_due, payments};

// Fills the tables of payments and, if premium is paid, of what is outstanding, and takes both rows so many steps back.
// The default cash of the premium leg stands in `earned`, which holds that of a fraction of 0 at first.
pub fn walk_with_tables(
    brought: &Brought<'_>,
    defaults: &mut [u64],
    premiums: &mut [u64],
    position: usize,
    count: usize,
    paid: &mut [u64],
    left: &mut [u64],
    earned: &mut [u64],
)
    requires rollable { Rollable brought.now.sheet defaults.old premiums.old position count }
    requires paid_len { length paid.old ≡ row_length brought.now.sheet }
    requires left_len { (length left.old ≡ row_length brought.now.sheet) × ((i : ℕ) → get_or left.old i 0 ≡ 0) }
    requires earned_len { (length earned.old ≡ row_length brought.now.sheet) × ((i : ℕ) → get_or earned.old i 0 ≡ 0) }
    ensures defaults_after { defaults.new
        ≡ rolled_back brought.now.sheet (default_of brought.now.sheet) position count defaults.old }
    ensures premiums_after { premiums.new
        ≡ rolled_back brought.now.sheet (premium_of brought.now.sheet) position count premiums.old }
{
    let pool = brought.sheet.pool;
    let attachments = brought.attachments();
    let starts = brought.starts();
    let hazards = brought.hazards();
    let discounts = brought.discounts();
    let accruals = brought.accruals();
    let elapsed = brought.elapsed();
    payments(pool, attachments, paid);
    outstandings_due(pool, attachments, accruals, elapsed, position, count, left);
    let names = brought.names();
    let tranches = brought.tranches();
    let mut held = 0;
    for i in (position - count..position).rev() {
        let discount = discounts[i];
        let accrual = accruals[i];
        let fraction = elapsed[i];
        let from = hazards_from(names, starts, i + 1);
        let into = &hazards[from..from + names];
        roll_all(names, tranches, into, discount, paid, defaults);
        accrue(accrual, left, premiums);
        earn(names, tranches, held, fraction, left, earned);
        held = fraction;
        roll_all(names, tranches, into, discount, earned, premiums);
    }
}
