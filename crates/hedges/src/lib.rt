// The arithmetic layer where numbers have a sign: net values, jumps and the hedge ratio. It knows no walk and no register.

#![tactic(auto)]

ghost use Rattle.std.specs.Prelude.{◌≡◌, ◌≤◌, ◌*◌, nat_abs};
ghost use Rattle.cash.specs.Units.{B};
ghost use Rattle.hedges.specs.Hedges.{
  net_value,
  change_of,
  jump_of,
  Figures,
  negative,
  unlike,
  hedge_of,
};

// W = 10,000,000 × D - coupon × A.
#[tactic(auto, unfolding(cash::specs::Units::B, crate::specs::Hedges::net_value))]
pub fn net_value(d: u64, coupon: u64, a: u64) -> i64
    requires { (d ≤ B) × (coupon ≤ 10_000_000) × (a ≤ 18 * B) }
    ensures { result ≡ net_value d coupon a }
{
    10_000_000 * (d as i64) - (coupon as i64) * (a as i64)
}

// The figures of a tranche at a node: its loss M, default leg D and premium leg A.
#[derive(Clone, Copy)]
pub struct Node {
    pub loss: u64,
    pub default: u64,
    pub premium: u64,
}

// How far a figure goes up, or down.
#[tactic(auto, unfolding(cash::specs::Units::B, crate::specs::Hedges::change_of))]
fn change(before: u64, after: u64) -> i64
    requires { (before ≤ 18 * B) × (after ≤ 18 * B) }
    ensures { result ≡ change_of before after }
{
    after as i64 - before as i64
}

// J, what the net value jumps by a default.
pub fn jump(coupon: u64, here: Node, next: Node) -> i64
    requires { (coupon ≤ 10_000_000) × Figures here × Figures next }
    ensures { result ≡ jump_of coupon here next }
{
    10_000_000 * (change(here.loss, next.loss) + change(here.default, next.default))
        - (coupon as i64) * change(here.premium, next.premium)
}

// x without its sign.
pub fn magnitude(x: i64) -> u64
    ensures { result ≡ nat_abs x }
{
    x.unsigned_abs()
}

// Whether one of the two is negative and the other is not.
pub fn unlike_signs(x: i64, y: i64) -> bool
    ensures { result ≡ unlike (negative x) (negative y) }
{
    (x < 0) != (y < 0)
}

// Why there is no hedge ratio.
#[derive(Clone, Copy, PartialEq, Eq, Debug)]
pub enum NoRatio {
    // 15, flat hedge: the index does not jump
    Flat,
    // 16, off scale
    OffScale,
}

// The tranche's jump over the index's in millionths, a half away from zero: a long division, since the jump × 10^6 does not fit 64 bits.
pub fn hedge_ratio(tranche: i64, index: i64) -> Result<i64, NoRatio>
    requires { (nat_abs tranche ≤ 200_000_000_000_000_000) × (nat_abs index ≤ 200_000_000_000_000_000) }
    ensures { result ≡ hedge_of tranche index }
{
    if index == 0 {
        return Err(NoRatio::Flat);
    }
    let mut quotient = tranche / index;
    let mut rest = tranche % index;
    if quotient.unsigned_abs() >= 1_000_000 {
        return Err(NoRatio::OffScale);
    }
    for _ in 0..6_u8 {
        quotient = quotient * 10 + rest * 10 / index;
        rest = rest * 10 % index;
    }
    if rest.unsigned_abs() * 2 < index.unsigned_abs() {
        return Ok(quotient);
    }
    if unlike_signs(tranche, index) {
        Ok(quotient - 1)
    } else {
        Ok(quotient + 1)
    }
}
