// The distribution of the default count, forward in time.

#![tactic(auto)]

ghost use Rattle.std.specs.Prelude.{◌≡◌, ℕ, ◌+◌, ◌*◌, ◌≤◌, ◌<◌, length, get_or};
ghost use Rattle.cash.specs.Units.{B};
ghost use Rattle.tree.specs.Forward.{same};
ghost use Rattle.rows.specs.Tables.{tab};
ghost use Rattle.rows.specs.Rows.{distribution_row};
ghost use Rattle.forward.specs.Steps.{hazard_sheet, HazardsFit, pushed_row};

use periods::hazards_from;

// B at the count 0 and 0 elsewhere, whatever the row held.
fn start(row: &mut [u64])
    requires { 0 < length row.old }
    ensures { row.new ≡ tab (length row.old) (λ k. B * same 0 k) }
{
    row.fill(0);
    row[0] = cash::UNITS;
}

// One step in place, from high counts to low ones: so every move is taken from the old row.
fn push(row: &mut [u64], hazards: &[u64])
    requires row_len { length row.old ≡ length hazards.now + 1 }
    requires row_most { (k : ℕ) → get_or row.old k 0 ≤ B }
    requires hazards_most { (k : ℕ) → get_or hazards.now k 0 ≤ B }
    ensures { row.new ≡ pushed_row hazards.now row.old }
{
    for k in (0..hazards.len()).rev() {
        let held = row[k];
        let moved = cash::half(held * hazards[k]);
        row[k + 1] += moved;
        row[k] = held - moved;
    }
}

// The distribution after so many steps, each by the hazards of its period, whatever the row held.
pub fn distribute(names: usize, starts: &[u64], hazards: &[u64], row: &mut [u64], steps: usize)
    requires row_len { length row.old ≡ names + 1 }
    requires hazards_fit { HazardsFit names starts.now hazards.now }
    ensures { row.new ≡ distribution_row (hazard_sheet names starts.now hazards.now) steps }
{
    start(row);
    for step in 1..=steps {
        let from = hazards_from(names, starts, step);
        push(row, &hazards[from..from + names]);
    }
}
