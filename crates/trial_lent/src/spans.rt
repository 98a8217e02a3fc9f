// The figures of a trial's sheet, and where its lists stand.
use crate::lengths::length;
use crate::sheet_lists;
use sheet::{Pool, Sheet, Span};
use trial::numbers::Trial;
use trial::place::Place;

fn pool(trial: Trial) -> Pool {
    Pool {
        names: trial.size(Place::Names),
        steps: trial.size(Place::Steps),
        tranches: trial.size(Place::Tranches),
        recovery: trial.get(Place::Recovery),
        number: 7,
    }
}

// The starts that a trial tells, and hazards as many as it tells, or else the names of each.
fn starts_span(trial: Trial) -> Span {
    Span {
        at: sheet_lists::STARTS,
        length: trial.size(Place::StartsLent),
    }
}

fn hazards_span(trial: Trial) -> Span {
    let length = match trial.size(Place::HazardsLent) {
        0 => trial
            .size(Place::Names)
            .saturating_mul(trial.size(Place::StartsLent)),
        told => told,
    };
    Span {
        at: sheet_lists::HAZARDS,
        length,
    }
}

// A list with a number for each step.
fn by_step(trial: Trial, at: usize, told: Place) -> Span {
    Span {
        at,
        length: length(trial, told, Place::Steps, 0),
    }
}

// A list with a number for each tranche, and one more.
fn by_tranche(trial: Trial, at: usize, told: Place) -> Span {
    Span {
        at,
        length: length(trial, told, Place::Tranches, 1),
    }
}

// The sheet of a trial.
pub fn sheet(trial: Trial) -> Sheet {
    Sheet {
        pool: pool(trial),
        attachments: by_tranche(trial, 0, Place::AttachmentsLent),
        starts: starts_span(trial),
        hazards: hazards_span(trial),
        discounts: by_step(trial, sheet_lists::DISCOUNTS, Place::DiscountsLent),
        accruals: by_step(trial, sheet_lists::ACCRUALS, Place::AccrualsLent),
        elapsed: by_step(trial, sheet_lists::ELAPSED, Place::ElapsedLent),
        coupons: by_tranche(trial, sheet_lists::COUPONS, Place::CouponsLent),
    }
}
