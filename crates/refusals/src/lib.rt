// Every refusal of a call, with its number. A list of checks finds the first of them, or nothing: `Result<(), Refusal>`.

#![tactic(auto)]

ghost use Rattle.std.specs.Prelude.{◌≡◌};
ghost use Rattle.refusals.specs.Refusals.{refusal_number};

// Every refusal of a call, with the number and word of document 01, and of T-01 and T-06 for the last two.
#[derive(Clone, Copy, Debug, PartialEq, Eq)]
pub enum Refusal {
    // 1, pool
    Pool,
    // 2, length
    Length,
    // 3, recovery
    Recovery,
    // 4, cuts
    Attachments,
    // 5, hazard
    Hazard,
    // 6, discount
    Discount,
    // 7, accrual
    Accrual,
    // 8, coupon
    Coupon,
    // 9, withdrawn
    Withdrawn,
    // 10, unissued
    Unissued,
    // 11, no walk
    NoWalk,
    // 12, soiled
    OverCeiling,
    // 13, out of steps
    OutOfSteps,
    // 14, off tree
    OffTree,
    // 15, flat hedge
    FlatHedge,
    // 16, off scale
    OffScale,
    // 21, elapsed
    Elapsed,
    // 25, periods
    Periods,
}

// A refusal's number in document 01.
impl From<Refusal> for u8 {
    ghost from_gives = { λ refusal number. number ≡ refusal_number refusal };

    fn from(refusal: Refusal) -> u8 {
        match refusal {
            Refusal::Pool => 1,
            Refusal::Length => 2,
            Refusal::Recovery => 3,
            Refusal::Attachments => 4,
            Refusal::Hazard => 5,
            Refusal::Discount => 6,
            Refusal::Accrual => 7,
            Refusal::Coupon => 8,
            Refusal::Withdrawn => 9,
            Refusal::Unissued => 10,
            Refusal::NoWalk => 11,
            Refusal::OverCeiling => 12,
            Refusal::OutOfSteps => 13,
            Refusal::OffTree => 14,
            Refusal::FlatHedge => 15,
            Refusal::OffScale => 16,
            Refusal::Elapsed => 21,
            Refusal::Periods => 25,
        }
    }
}
