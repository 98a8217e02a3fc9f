// The numbers of a trial.
use crate::place::{PLACES, Place};

// A number for each place.
#[derive(Clone, Copy)]
pub struct Trial {
    numbers: [u64; PLACES],
}

impl Trial {
    pub fn get(self, place: Place) -> u64 {
        self.numbers[place as usize]
    }

    pub fn size(self, place: Place) -> usize {
        self.get(place) as usize
    }

    // A number put into its place.
    pub fn with(self, place: Place, number: u64) -> Trial {
        let mut numbers = self.numbers;
        numbers[place as usize] = number;
        Trial { numbers }
    }
}

// Two tranches on three names and three steps, walked from the end to the root. What is not told is 0.
// A default from count 0 pays 199999999 to tranche 0 and to the index, which is what their D fall by.
const WALKED: [(Place, u64); 44] = [
    (Place::Names, 3),
    (Place::Steps, 3),
    (Place::Tranches, 2),
    (Place::Recovery, 400_000_001),
    (Place::StartsLent, 1),
    (Place::RegisterLent, 256),
    (Place::Middle, 300_000_000),
    (Place::Highest, 700_000_000),
    (Place::Start, 1),
    (Place::SecondStart, 2),
    (Place::OtherStarts, 3),
    (Place::Hazard, 100_000_000),
    (Place::ThirdHazard, 700_000_000),
    (Place::OtherHazards, 200_000_000),
    (Place::NextHazard, 150_000_000),
    (Place::LaterHazards, 50_000_000),
    (Place::Discount, 950_000_000),
    (Place::OtherDiscounts, 990_000_000),
    (Place::Accrual, 250_000_000),
    (Place::ThirdAccrual, 1_000_000_000),
    (Place::OtherAccruals, 950_000_000),
    (Place::Elapsed, 200_000_000),
    (Place::SecondElapsed, 600_000_000),
    (Place::ThirdElapsed, 350_000_000),
    (Place::Coupon, 1_000_000),
    (Place::ThirdCoupon, 500_000),
    (Place::OtherCoupons, 700_000),
    (Place::Byte, 0xA5),
    (Place::Open, 1),
    (Place::Number, 7),
    (Place::Position, 2),
    (Place::Back, 3),
    (Place::Forward, 3),
    (Place::OwnDefault, 200_000_999),
    (Place::OwnNextDefault, 1_000),
    (Place::OtherDefaults, 3_000),
    (Place::IndexDefault, 200_001_999),
    (Place::IndexNextDefault, 2_000),
    (Place::OwnPremium, 6_000_000),
    (Place::OwnNextPremium, 5_000_000),
    (Place::OtherPremiums, 7_000_000),
    (Place::IndexPremium, 8_000_000),
    (Place::IndexNextPremium, 5_000_000),
    (Place::LastPremium, 9_000_000),
];

pub fn walked() -> Trial {
    let mut trial = Trial {
        numbers: [0; PLACES],
    };
    for (place, number) in WALKED {
        trial = trial.with(place, number);
    }
    trial
}

// The same, but a walk and rows that are made up, one step before the end.
pub fn made_up() -> Trial {
    walked().with(Place::MadeUp, 1).with(Place::Back, 0)
}
