// The rows of a walk, several steps back, with room for the tables.

#![tactic(auto)]

ghost use Rattle.std.specs.Prelude.{◌≡◌};
ghost use Rattle.tree.specs.Sheet.{default_of, premium_of};
ghost use Rattle.rows.specs.Rows.{rolled_back};
ghost use Rattle.rows.specs.Rollable.{Rollable};

use backward::walk_with_tables;
use sheet::{Brought, ROW_MOST};

// Takes both rows count steps back from a position.
pub fn walk_back(
    brought: &Brought<'_>,
    defaults: &mut [u64],
    premiums: &mut [u64],
    position: usize,
    count: usize,
)
    requires { Rollable brought.now.sheet defaults.old premiums.old position count }
    ensures defaults_after { defaults.new
        ≡ rolled_back brought.now.sheet (default_of brought.now.sheet) position count defaults.old }
    ensures premiums_after { premiums.new
        ≡ rolled_back brought.now.sheet (premium_of brought.now.sheet) position count premiums.old }
{
    let mut paid = [0u64; ROW_MOST];
    let mut left = [0u64; ROW_MOST];
    let mut earned = [0u64; ROW_MOST];
    let size = (brought.tranches() + 1) * (brought.names() + 1);
    walk_with_tables(
        brought,
        defaults,
        premiums,
        position,
        count,
        &mut paid[..size],
        &mut left[..size],
        &mut earned[..size],
    );
}
