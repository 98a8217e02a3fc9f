// The table of what a default pays of the premium earned up to it, by tranche and the count before it.

#![tactic(auto)]

ghost use Rattle.std.specs.Prelude.{◌≡◌, suc, ◌+◌, ◌*◌, ◌≤◌, length};
ghost use Rattle.std.specs.Fork.{slice_chunk};
ghost use Rattle.cash.specs.Units.{B};
ghost use Rattle.rows.specs.Tables.{tab, grid};
ghost use Rattle.rows.specs.Kernels.{earned_at, earned_in, Falling, FallingRows};

use rows::table::fill_rows;

// What a default pays of one tranche's premium, by the count before it: 0 at the last count, from which none comes.
fn earned_row(names: usize, fraction: u64, outstandings: &[u64], row: &mut [u64])
    requires { (fraction ≤ B) × Falling names outstandings.now × (length row.old ≡ suc names) }
    ensures { row.new ≡ tab (suc names) (earned_at names fraction outstandings.now) }
{
    for k in 0..names {
        row[k] = cash::elapsed_payment(fraction, outstandings[k], outstandings[k + 1]);
    }
    row[names] = 0;
}

// Fills the table for a fraction, where it holds that of `held`: most steps have the fraction of the step after them, 0.
pub fn earn(
    names: usize,
    tranches: usize,
    held: u64,
    fraction: u64,
    outstandings: &[u64],
    table: &mut [u64],
)
    requires fraction_bound { (fraction ≤ B) × FallingRows (suc tranches) names outstandings.now }
    requires table_value { table.old ≡ grid (suc tranches) (suc names) (earned_in names held outstandings.now) }
    ensures { table.new
        ≡ grid (suc tranches) (suc names) (earned_in names fraction outstandings.now) }
{
    if fraction != held {
        let width = names + 1;
        fill_rows(
            names,
            tranches,
            table,
            |j: usize, row: &mut [u64]|
                requires { (j * width + width ≤ length outstandings.now) × (fraction ≤ B)
                    × Falling names (slice_chunk outstandings.now width j) × (length row.now ≡ suc names) }
                ensures { row.exit.now ≡ tab (suc names) (earned_at names fraction (slice_chunk outstandings.entry.now width j)) }
            {
                earned_row(
                    names,
                    fraction,
                    &outstandings[j * width..j * width + width],
                    row,
                )
            },
        );
    }
}
