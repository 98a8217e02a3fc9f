// The numbers of a sheet's lists.
use trial::numbers::Trial;
use trial::place::Place;

// Where the lists of a sheet stand among its numbers, each with room for the longest that is tried.
pub const HAZARDS: usize = 11;

pub const DISCOUNTS: usize = 139;

pub const ACCRUALS: usize = 3791;

pub const ELAPSED: usize = 7443;

pub const COUPONS: usize = 11095;

pub const STARTS: usize = 11111;

pub const NUMBERS: usize = 11128;

// Numbers, each so much above the one before.
fn fill(numbers: &mut [u64], first: u64, apart: u64) {
    let mut number = first;
    for slot in numbers {
        *slot = number;
        number = number.wrapping_add(apart);
    }
}

// One number at its place.
fn put(numbers: &mut [u64], place: usize, number: u64) {
    if place < numbers.len() {
        numbers[place] = number;
    }
}

// The first figure, the third, and all others.
fn list(numbers: &mut [u64], first: u64, third: u64, others: u64) {
    numbers.fill(others);
    put(numbers, 0, first);
    put(numbers, 2, third);
}

// The points after the third stand one apart, so that none of them can be moved.
fn points(numbers: &mut [u64; NUMBERS], trial: Trial) {
    numbers[0] = trial.get(Place::Lowest);
    numbers[1] = trial.get(Place::Middle);
    numbers[2] = trial.get(Place::Highest);
    fill(&mut numbers[3..HAZARDS], 700_000_001, 1);
}

// The starts after the third stand one apart.
fn starts(numbers: &mut [u64; NUMBERS], trial: Trial) {
    numbers[STARTS] = trial.get(Place::Start);
    numbers[STARTS + 1] = trial.get(Place::SecondStart);
    fill(
        &mut numbers[STARTS + 2..NUMBERS],
        trial.get(Place::OtherStarts),
        1,
    );
}

// The hazards of the first period, and behind them those of the others.
fn hazards(numbers: &mut [u64; NUMBERS], trial: Trial) {
    let next = HAZARDS + trial.size(Place::Names).min(126);
    list(
        &mut numbers[HAZARDS..next],
        trial.get(Place::Hazard),
        trial.get(Place::ThirdHazard),
        trial.get(Place::OtherHazards),
    );
    numbers[next] = trial.get(Place::NextHazard);
    fill(
        &mut numbers[next + 1..DISCOUNTS],
        trial.get(Place::LaterHazards),
        1_000_000,
    );
}

// The second accrual is 0.
fn accruals(numbers: &mut [u64; NUMBERS], trial: Trial) {
    list(
        &mut numbers[ACCRUALS..ELAPSED],
        trial.get(Place::Accrual),
        trial.get(Place::ThirdAccrual),
        trial.get(Place::OtherAccruals),
    );
    numbers[ACCRUALS + 1] = 0;
}

// Zeros, but for the first three of a trial that has elapsed fractions.
fn elapsed(numbers: &mut [u64; NUMBERS], trial: Trial) {
    if trial.get(Place::HasElapsed) == 1 {
        numbers[ELAPSED] = trial.get(Place::Elapsed);
        numbers[ELAPSED + 1] = trial.get(Place::SecondElapsed);
        numbers[ELAPSED + 2] = trial.get(Place::ThirdElapsed);
    }
}

// All of them, among zeros. They are written where they are lent from, since the list is long.
pub fn all(numbers: &mut [u64; NUMBERS], trial: Trial) {
    points(numbers, trial);
    starts(numbers, trial);
    hazards(numbers, trial);
    let discounts = trial.get(Place::OtherDiscounts);
    list(
        &mut numbers[DISCOUNTS..ACCRUALS],
        trial.get(Place::Discount),
        discounts,
        discounts,
    );
    accruals(numbers, trial);
    elapsed(numbers, trial);
    list(
        &mut numbers[COUPONS..STARTS],
        trial.get(Place::Coupon),
        trial.get(Place::ThirdCoupon),
        trial.get(Place::OtherCoupons),
    );
}
