// The lengths of what a trial lends.
use trial::numbers::Trial;
use trial::place::Place;

// The length that a trial tells, or else what its pool asks for.
pub fn length(trial: Trial, told: Place, right: Place, more: usize) -> usize {
    match trial.size(told) {
        0 => trial.size(right).saturating_add(more),
        length => length,
    }
}

// The same for a row.
pub fn row_length(trial: Trial, told: Place) -> usize {
    match trial.size(told) {
        0 => {
            let names = trial.size(Place::Names).saturating_add(1);
            trial
                .size(Place::Tranches)
                .saturating_add(1)
                .saturating_mul(names)
        }
        length => length,
    }
}
