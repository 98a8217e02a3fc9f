// The rows that a trial lends.
use trial::numbers::Trial;
use trial::place::Place;

// The entries of a row that a trial tells. Four are a tranche's, for the counts 0 to 3; the index comes third.
#[derive(Clone, Copy)]
struct Told {
    own: u64,
    own_next: u64,
    second: u64,
    index: u64,
    index_next: u64,
    last: u64,
    others: u64,
}

// Room for a row, and its entries.
fn row(told: Told) -> [u64; 400] {
    let mut row = [told.others; 400];
    row[0] = told.own;
    row[1] = told.own_next;
    row[4..8].fill(told.second);
    row[8] = told.index;
    row[9] = told.index_next;
    row[11] = told.last;
    row
}

pub fn default_row(trial: Trial) -> [u64; 400] {
    row(Told {
        own: trial.get(Place::OwnDefault),
        own_next: trial.get(Place::OwnNextDefault),
        second: trial.get(Place::OtherDefaults),
        index: trial.get(Place::IndexDefault),
        index_next: trial.get(Place::IndexNextDefault),
        last: trial.get(Place::LastDefault),
        others: 0,
    })
}

pub fn premium_row(trial: Trial) -> [u64; 400] {
    let others = trial.get(Place::OtherPremiums);
    row(Told {
        own: trial.get(Place::OwnPremium),
        own_next: trial.get(Place::OwnNextPremium),
        second: others,
        index: trial.get(Place::IndexPremium),
        index_next: trial.get(Place::IndexNextPremium),
        last: trial.get(Place::LastPremium),
        others,
    })
}
