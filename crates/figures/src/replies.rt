// What accepted calls answer.
ghost use Rattle.std.specs.Prelude.{◌≡◌, ◌≤◌, nat_abs};
ghost use Rattle.hedges.specs.Hedges.{hedge_of};
ghost use Rattle.rows.specs.Rows.{rows_of};
ghost use Rattle.figures.specs.Nodes.{Readable};
ghost use Rattle.figures.specs.Answer.{worth_of, ratio_answer};
ghost use Rattle.figures.specs.Replies.{worth, hedge_answer};

use crate::Worth;
use hedges::NoRatio;
use refusals::Refusal;
use sheet::Brought;

// D, A and W of a tranche at a count.
pub fn worth_at(
    brought: &Brought<'_>,
    defaults: &[u64],
    premiums: &[u64],
    tranche: usize,
    count: usize,
) -> Worth
    requires { Readable brought.now (rows_of defaults.now premiums.now) tranche count }
    ensures { worth_of result ≡ worth brought.now (rows_of defaults.now premiums.now) tranche count }
{
    let place = tranche * (brought.names() + 1) + count;
    let default = defaults[place];
    let premium = premiums[place];
    let coupon = brought.coupons()[tranche];
    Worth {
        default,
        premium,
        net: hedges::net_value(default, coupon, premium),
    }
}

// The ratio of two jumps as it is answered.
pub fn ratio_of(tranche: i64, index: i64) -> Result<i64, Refusal>
    requires { (nat_abs tranche ≤ 200_000_000_000_000_000) × (nat_abs index ≤ 200_000_000_000_000_000) }
    ensures { ratio_answer result ≡ hedge_answer (hedge_of tranche index) }
{
    hedges::hedge_ratio(tranche, index).map_err(|why| match why {
        NoRatio::Flat => Refusal::FlatHedge,
        NoRatio::OffScale => Refusal::OffScale,
    })
}
