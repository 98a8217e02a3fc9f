// The arithmetic layer: rounding, losses, recoveries and payments. It knows no walk and no register.

#![tactic(auto)]

ghost use Rattle.std.specs.Prelude.{◌≡◌, ◌+◌, ◌≤◌, ◌<◌, ◌*◌};
ghost use Rattle.cash.specs.Units.{B};
ghost use Rattle.cash.specs.Losses.{
  pool_loss,
  tranche_loss,
  left_to_lose,
  pool_recovery,
  tranche_recovery,
  tranche_outstanding,
  index_outstanding,
  default_payment,
  premium_payment,
  elapsed_payment,
};

// A billion: the units of one pool.
pub const UNITS: u64 = 1_000_000_000;

// y billionths to the nearest whole number, a half upwards.
#[tactic(auto, unfolding(crate::specs::Units::B, crate::specs::Units::half))]
pub fn half(y: u64) -> u64
    requires { y ≤ 18 * (B * B) }
    ensures { result ≡ Rattle.cash.specs.Units.half y }
{
    (y + 500_000_000) / UNITS
}

// L(k), what k defaults take from the pool.
#[tactic(auto, unfolding(crate::specs::Units::B, crate::specs::Losses::pool_loss))]
pub fn pool_loss(names: usize, recovery: u64, count: usize) -> u64
    requires { (0 < names) × (names ≤ 125) × (recovery ≤ B) × (count ≤ names) }
    ensures { result ≡ pool_loss names recovery count }
{
    (count as u64) * (UNITS - recovery) / (names as u64)
}

// M, the part of a pool loss that falls between two attachment points. The loss ends below the tranche, inside it, or above it.
// By cases and not by `clamp`: T-03 promises that the code has them.
#[tactic(auto, using(crate::proofs::Losses::cases_clamp), unfolding(crate::specs::Losses::clamped_loss))]
pub fn tranche_loss(lower: u64, upper: u64, loss: u64) -> u64
    requires { lower ≤ upper }
    ensures { result ≡ tranche_loss lower upper loss }
{
    if loss <= lower {
        0
    } else if loss <= upper {
        loss - lower
    } else {
        upper - lower
    }
}

// What a tranche has left to lose: its width less its loss.
#[tactic(auto, using(crate::proofs::Losses::tranche_loss_most), unfolding(crate::specs::Losses::left_to_lose))]
pub fn left_to_lose(lower: u64, upper: u64, loss: u64) -> u64
    requires { lower ≤ upper }
    ensures { result ≡ left_to_lose lower upper loss }
{
    upper - lower - tranche_loss(lower, upper, loss)
}

// Z(k), what is got back of k defaults.
#[tactic(auto, unfolding(crate::specs::Units::B, crate::specs::Losses::pool_recovery))]
pub fn pool_recovery(names: usize, recovery: u64, count: usize) -> u64
    requires { (0 < names) × (names ≤ 125) × (recovery ≤ B) × (count ≤ names) }
    ensures { result ≡ pool_recovery names recovery count }
{
    (count as u64) * recovery / (names as u64)
}

// What a recovery takes off a tranche. Seen from the top of the pool it is a loss.
#[tactic(auto, using(crate::proofs::Recoveries::recovery_mirrored), unfolding(crate::specs::Units::B))]
pub fn tranche_recovery(lower: u64, upper: u64, recovered: u64) -> u64
    requires { (lower ≤ upper) × (upper ≤ B) }
    ensures { result ≡ tranche_recovery lower upper recovered }
{
    tranche_loss(UNITS - upper, UNITS - lower, recovered)
}

// O of a tranche: what it has left to lose, less what a recovery takes off it.
#[tactic(auto, unfolding(crate::specs::Losses::left_to_lose, crate::specs::Losses::tranche_outstanding))]
pub fn tranche_outstanding(lower: u64, upper: u64, loss: u64, recovered: u64) -> u64
    requires { (lower ≤ upper) × (upper ≤ B) × (loss + recovered ≤ B) }
    ensures { result ≡ tranche_outstanding lower upper loss recovered }
{
    left_to_lose(lower, upper, loss) - tranche_recovery(lower, upper, recovered)
}

// O of the index: the pool less what is lost and what is recovered.
#[tactic(auto, unfolding(crate::specs::Units::B, crate::specs::Losses::index_outstanding))]
pub fn index_outstanding(loss: u64, recovered: u64) -> u64
    requires { loss + recovered ≤ B }
    ensures { result ≡ index_outstanding loss recovered }
{
    UNITS - loss - recovered
}

// M(k + 1) - M(k), what a default pays.
#[tactic(auto, unfolding(crate::specs::Losses::default_payment))]
pub fn default_payment(before: u64, after: u64) -> u64
    requires { before ≤ after }
    ensures { result ≡ default_payment before after }
{
    after - before
}

// What a premium date pays on the outstanding nominal.
#[tactic(auto, unfolding(crate::specs::Units::B, crate::specs::Losses::premium_payment))]
pub fn premium_payment(accrual: u64, outstanding: u64) -> u64
    requires { (accrual ≤ B) × (outstanding ≤ B) }
    ensures { result ≡ premium_payment accrual outstanding }
{
    half(accrual * outstanding)
}

// What a default pays of the premium earned since the last date, on the nominal that it takes off.
#[tactic(auto, unfolding(crate::specs::Units::B, crate::specs::Losses::elapsed_payment))]
pub fn elapsed_payment(fraction: u64, before: u64, after: u64) -> u64
    requires { (fraction ≤ B) × (before ≤ B) × (after ≤ before) }
    ensures { result ≡ elapsed_payment fraction before after }
{
    half(fraction * (before - after))
}
