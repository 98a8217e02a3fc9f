// The calls of a trial, on what it lends, in one line.
use crate::calls::{Lent, forward, walk};
use sheet::Brought;
use std::io;
use trial::numbers::Trial;
use trial::parts::{first, first_mut};
use trial::place::Place;
use trial::registers;
use trial_lent::lent_rows::{default_row, premium_row};
use trial_lent::{lengths, sheet_lists, spans};

// A sheet and its numbers, the register and the rows.
pub fn sheet(rt: &impl Print, trial: Trial) -> io::Result<()> {
    let mut numbers = [0; sheet_lists::NUMBERS];
    sheet_lists::all(&mut numbers, trial);
    let register = registers::register(trial.get(Place::Byte));
    let mut defaults = default_row(trial);
    let mut premiums = premium_row(trial);
    let defaults_lent = lengths::row_length(trial, Place::DefaultsLent);
    let premiums_lent = lengths::row_length(trial, Place::PremiumsLent);
    let mut lent = Lent {
        brought: Brought {
            sheet: spans::sheet(trial),
            numbers: &numbers,
        },
        register: first(&register, trial.size(Place::RegisterLent)),
        defaults: first_mut(&mut defaults, defaults_lent),
        premiums: first_mut(&mut premiums, premiums_lent),
    };
    walk(rt, trial, &mut lent)?;
    let mut row = [7; 130];
    let row_lent = lengths::length(trial, Place::RowLent, Place::Names, 1);
    forward(rt, trial, &lent, first_mut(&mut row, row_lent))
}
