// The trial entries of document 01 that are not proved of the definitions, one line each, and every refusal beside what is just accepted.

#![tactic(auto)]

use std::io;
use std::ops::RangeInclusive;
use trial::numbers::{Trial, made_up, walked};
use trial::place::Place;
use trial::print;
use trial_calls::sheets;

// Units in the whole pool.
const B: u64 = 1_000_000_000;

// One more.
const OVER: u64 = B + 1;

// A trial at each of the values that its number takes in turn.
fn edge(
    rt: &impl Print,
    values: RangeInclusive<u64>,
    start: Trial,
    place: Place,
) -> io::Result<()> {
    for value in values {
        print!(rt; "{place} {value}")?;
        sheets::sheet(rt, start.with(place, value))?;
        print::end(rt)?;
    }
    Ok(())
}

// The same of the trial that is walked, and of the made-up one.
fn plain(rt: &impl Print, values: RangeInclusive<u64>, place: Place) -> io::Result<()> {
    edge(rt, values, walked(), place)
}

fn made(rt: &impl Print, values: RangeInclusive<u64>, place: Place) -> io::Result<()> {
    edge(rt, values, made_up(), place)
}

// Small hazards, so that the last of many steps still counts.
fn many_steps() -> Trial {
    walked()
        .with(Place::Back, 3650)
        .with(Place::Forward, 3650)
        .with(Place::Hazard, 100_000)
        .with(Place::ThirdHazard, 300_000)
        .with(Place::OtherHazards, 200_000)
        .with(Place::OtherDiscounts, 999_900_000)
        .with(Place::OtherAccruals, 2_000_004)
        .with(Place::Tranche, 1)
}

// 1.
fn pool(rt: &impl Print) -> io::Result<()> {
    let second = walked().with(Place::Tranche, 1);
    let one_step = walked().with(Place::Back, 1).with(Place::Forward, 1);
    plain(rt, 0..=1, Place::Names)?;
    edge(rt, 125..=126, second.with(Place::Count, 124), Place::Names)?;
    edge(rt, 0..=1, one_step, Place::Steps)?;
    edge(rt, 3650..=3651, many_steps(), Place::Steps)?;
    edge(rt, 0..=1, second, Place::Tranches)?;
    edge(rt, 8..=9, walked().with(Place::Tranche, 8), Place::Tranches)
}

// 2: one fewer, right, one more.
fn lengths(rt: &impl Print) -> io::Result<()> {
    plain(rt, 2..=4, Place::AttachmentsLent)?;
    plain(rt, 2..=4, Place::HazardsLent)?;
    plain(rt, 2..=4, Place::DiscountsLent)?;
    plain(rt, 2..=4, Place::AccrualsLent)?;
    plain(rt, 2..=4, Place::CouponsLent)?;
    plain(rt, 255..=257, Place::RegisterLent)?;
    plain(rt, 11..=13, Place::DefaultsLent)?;
    plain(rt, 11..=13, Place::PremiumsLent)?;
    plain(rt, 3..=5, Place::RowLent)
}

// 2, 25 and 5, of the periods. So many steps that 17 starts would be on the tree.
fn periods(rt: &impl Print) -> io::Result<()> {
    let two = walked().with(Place::StartsLent, 2);
    let three = walked().with(Place::StartsLent, 3);
    let small = walked()
        .with(Place::Steps, 17)
        .with(Place::Back, 17)
        .with(Place::Forward, 17)
        .with(Place::OtherAccruals, 100_000_000);
    edge(
        rt,
        0..=2,
        walked().with(Place::HazardsLent, 3),
        Place::StartsLent,
    )?;
    edge(
        rt,
        1..=3,
        walked().with(Place::HazardsLent, 6),
        Place::StartsLent,
    )?;
    edge(
        rt,
        16..=17,
        small.with(Place::Tranche, 2),
        Place::StartsLent,
    )?;
    edge(rt, 5..=7, two, Place::HazardsLent)?;
    plain(rt, 0..=2, Place::Start)?;
    edge(rt, 1..=4, two, Place::SecondStart)?;
    edge(rt, 2..=4, three, Place::OtherStarts)?;
    edge(
        rt,
        B..=OVER,
        two.with(Place::SecondStart, 3),
        Place::NextHazard,
    )
}

// 3 to 6.
fn figures(rt: &impl Print) -> io::Result<()> {
    let second = walked().with(Place::Tranche, 1);
    let index = walked().with(Place::Tranche, 2);
    let sure = walked().with(Place::OtherHazards, B);
    edge(rt, B..=OVER, index.with(Place::Count, 2), Place::Recovery)?;
    plain(rt, 299_999_999..=300_000_000, Place::Lowest)?;
    plain(rt, 0..=1, Place::Middle)?;
    edge(rt, 699_999_999..=700_000_000, second, Place::Middle)?;
    edge(rt, B..=OVER, second, Place::Highest)?;
    edge(rt, B..=OVER, sure, Place::Hazard)?;
    edge(
        rt,
        B..=OVER,
        sure.with(Place::Hazard, B),
        Place::ThirdHazard,
    )?;
    edge(rt, 0..=1, index, Place::Discount)?;
    edge(rt, B..=OVER, index, Place::Discount)
}

// 7 and 8. With twelve steps the accruals but for the first are 9550000000 together.
fn premiums(rt: &impl Print) -> io::Result<()> {
    let index = walked().with(Place::Tranche, 2);
    let full = index.with(Place::Steps, 12).with(Place::Back, 12);
    edge(rt, B..=OVER, index, Place::Accrual)?;
    edge(rt, 450_000_000..=450_000_001, full, Place::Accrual)?;
    edge(rt, 0..=1, index, Place::ThirdAccrual)?;
    plain(rt, 10_000_000..=10_000_001, Place::Coupon)?;
    edge(rt, 10_000_000..=10_000_001, index, Place::ThirdCoupon)
}

// Elapsed fractions: 2, values, 21, and 7 and 8 beside it. Step 2 is no premium date: the next one is step 3.
fn elapsed(rt: &impl Print) -> io::Result<()> {
    let earned = walked().with(Place::HasElapsed, 1);
    let index = earned.with(Place::Tranche, 2);
    let one_name = index.with(Place::Names, 1).with(Place::Hazard, B);
    let third = one_name.with(Place::Back, 1);
    let second = one_name.with(Place::Back, 2);
    let dear = earned.with(Place::Coupon, 10_000_001);
    edge(rt, 2..=4, earned, Place::ElapsedLent)?;
    edge(rt, 0..=3, earned, Place::Tranche)?;
    edge(rt, 1..=4, one_name, Place::Back)?;
    edge(rt, 250_000_000..=250_000_001, one_name, Place::Elapsed)?;
    edge(rt, B..=OVER, second, Place::SecondElapsed)?;
    edge(rt, B..=OVER, third, Place::ThirdElapsed)?;
    edge(rt, 599_999_999..=600_000_000, index, Place::ThirdAccrual)?;
    edge(rt, 0..=1, earned, Place::ThirdAccrual)?;
    edge(rt, 250_000_000..=250_000_001, dear, Place::Elapsed)
}

// 9 and 10.
fn bytes(rt: &impl Print) -> io::Result<()> {
    plain(rt, 0x00..=0x00, Place::Byte)?;
    plain(rt, 0xA4..=0xA6, Place::Byte)?;
    plain(rt, 0xFE..=0xFF, Place::Byte)
}

// 11, and 12 beside it: at the last step nearly no premium is left, so these rows are over their ceilings there.
fn walks(rt: &impl Print) -> io::Result<()> {
    made(rt, 0..=1, Place::Open)?;
    made(rt, 6..=8, Place::Number)?;
    made(rt, 2..=4, Place::Position)
}

// 12 for D: the width less what is lost.
fn default_ceilings(rt: &impl Print) -> io::Result<()> {
    let next = made_up().with(Place::Count, 1);
    let index = made_up().with(Place::Tranche, 2);
    let index_next = index.with(Place::Count, 1);
    let last = index.with(Place::Count, 3);
    made(rt, 300_000_000..=300_000_001, Place::OwnDefault)?;
    edge(rt, 100_000_001..=100_000_002, next, Place::OwnNextDefault)?;
    edge(rt, 599_999_999..=600_000_000, index, Place::IndexDefault)?;
    edge(
        rt,
        400_000_000..=400_000_001,
        index_next,
        Place::IndexNextDefault,
    )?;
    edge(rt, 0..=1, last, Place::LastDefault)
}

// 12 for A: the accruals to come, a unit for each name that is left, and two for each step.
fn premium_ceilings(rt: &impl Print) -> io::Result<()> {
    let next = made_up().with(Place::Count, 1);
    let root = made_up().with(Place::Position, 0);
    let index = made_up().with(Place::Tranche, 2);
    let index_next = index.with(Place::Count, 1);
    let last = index.with(Place::Count, 3);
    made(rt, 1_000_000_005..=1_000_000_006, Place::OwnPremium)?;
    edge(rt, 1_250_000_009..=1_250_000_010, root, Place::OwnPremium)?;
    edge(
        rt,
        1_000_000_004..=1_000_000_005,
        next,
        Place::OwnNextPremium,
    )?;
    edge(
        rt,
        1_000_000_005..=1_000_000_006,
        index,
        Place::IndexPremium,
    )?;
    edge(
        rt,
        1_000_000_004..=1_000_000_005,
        index_next,
        Place::IndexNextPremium,
    )?;
    edge(rt, 1_000_000_002..=1_000_000_003, last, Place::LastPremium)
}

// 13 and 14.
fn operands(rt: &impl Print) -> io::Result<()> {
    let second = made_up().with(Place::Tranche, 1);
    made(rt, 0..=3, Place::Back)?;
    plain(rt, 0..=1, Place::Forward)?;
    plain(rt, 3..=4, Place::Forward)?;
    made(rt, 2..=3, Place::Tranche)?;
    edge(rt, 2..=4, second, Place::Count)
}

// With coupons of 1 a jump is A at count 0 less A at count 1, which is 5000000: D fall by what a default pays.
fn jumps(own: u64, index: u64) -> Trial {
    made_up()
        .with(Place::Coupon, 1)
        .with(Place::ThirdCoupon, 1)
        .with(Place::OwnPremium, own)
        .with(Place::IndexPremium, index)
}

// 15 and 16, for jumps of either sign.
fn scales(rt: &impl Print) -> io::Result<()> {
    let rises = jumps(5_000_000, 5_000_001);
    let falls = jumps(5_000_000, 4_999_999);
    edge(
        rt,
        4_999_999..=5_000_001,
        jumps(5_999_999, 5_000_000),
        Place::IndexPremium,
    )?;
    edge(rt, 5_999_999..=6_000_000, rises, Place::OwnPremium)?;
    edge(rt, 5_999_999..=6_000_000, falls, Place::OwnPremium)?;
    edge(rt, 4_000_000..=4_000_001, rises, Place::OwnPremium)?;
    edge(rt, 4_000_000..=4_000_001, falls, Place::OwnPremium)
}

// Halves of a millionth go away from zero.
fn halves(rt: &impl Print) -> io::Result<()> {
    let one = jumps(5_000_001, 5_000_000);
    let three = jumps(5_000_003, 5_000_000);
    let minus_one = jumps(4_999_999, 5_000_000);
    let minus_three = jumps(4_999_997, 5_000_000);
    edge(rt, 7_000_000..=7_000_001, one, Place::IndexPremium)?;
    edge(rt, 7_000_000..=7_000_001, three, Place::IndexPremium)?;
    edge(rt, 7_000_000..=7_000_001, minus_one, Place::IndexPremium)?;
    edge(rt, 7_000_000..=7_000_001, minus_three, Place::IndexPremium)?;
    edge(rt, 2_999_999..=3_000_000, one, Place::IndexPremium)?;
    edge(rt, 2_999_999..=3_000_000, minus_one, Place::IndexPremium)
}

fn main(rt: HostRuntime) -> io::Result<()> {
    pool(&rt)?;
    lengths(&rt)?;
    periods(&rt)?;
    figures(&rt)?;
    premiums(&rt)?;
    elapsed(&rt)?;
    bytes(&rt)?;
    walks(&rt)?;
    default_ceilings(&rt)?;
    premium_ceilings(&rt)?;
    operands(&rt)?;
    scales(&rt)?;
    halves(&rt)?;
    trial_entries::all(&rt)?;
    trial_entries::cut_writes(&rt)?;
    trial_packed::readings(&rt)?;
    trial_packed::writings(&rt)?;
    trial_book::signs(&rt)?;
    trial_book::limbs(&rt)?;
    trial_book::lengths(&rt)?;
    trial_book::ranges(&rt)?;
    trial_book::rooms(&rt)?;
    trial_turns::orders(&rt)?;
    trial_turns::calls(&rt)?;
    trial_turns::limits(&rt)
}
