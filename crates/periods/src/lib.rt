// Which hazards a step goes by: those of the period that holds it.

#![tactic(auto)]

ghost use Rattle.std.specs.Prelude.{◌≡◌, ◌*◌, ◌≤◌, length};
ghost use Rattle.sheet.specs.Periods.{begun, period_of};

// How many of the starts lie at or below a step.
fn periods_begun(starts: &[u64], step: usize) -> usize
    ensures { result ≡ begun starts.now step }
{
    starts.iter().filter(|start| **start <= step as u64).count()
}

// Where the hazards of a step's period begin.
pub fn hazards_from(names: usize, starts: &[u64], step: usize) -> usize
    requires { (names ≤ 125) × (length starts.now ≤ 16) }
    ensures { result ≡ period_of starts.now step * names }
{
    periods_begun(starts, step).saturating_sub(1) * names
}
