// The calls on what a trial lends, each handing its walk to the next. They print the number that is answered, and the figures if it is 0.
use sheet::Brought;
use std::io;
use trial::numbers::Trial;
use trial::place::Place;
use trial::print;
use walk::Walk;

// What a trial lends to the calls of a walk.
#[derive(Drop)]
pub struct Lent<'a> {
    pub brought: Brought<'a>,
    pub register: &'a [u8],
    pub defaults: &'a mut [u64],
    pub premiums: &'a mut [u64],
}

// The walk that a trial holds.
fn held(trial: Trial) -> Walk {
    Walk {
        open: trial.get(Place::Open) == 1,
        number: print::byte(trial.get(Place::Number)),
        position: trial.size(Place::Position),
    }
}

fn ratio(rt: &impl Print, trial: Trial, walk: Walk, lent: &Lent) -> io::Result<()> {
    let reply = walk.hedge_ratio(
        &lent.brought,
        lent.register,
        lent.defaults,
        lent.premiums,
        trial.size(Place::Tranche),
        trial.size(Place::Count),
    );
    print::hedged(rt, reply.answer)
}

fn value(rt: &impl Print, trial: Trial, walk: Walk, lent: &Lent) -> io::Result<Walk> {
    let reply = walk.value(
        &lent.brought,
        lent.register,
        lent.defaults,
        lent.premiums,
        trial.size(Place::Tranche),
        trial.size(Place::Count),
    );
    print::valued(rt, reply.answer)?;
    Ok(reply.walk)
}

fn back(rt: &impl Print, trial: Trial, walk: Walk, lent: &mut Lent) -> io::Result<Walk> {
    let reply = walk.back(
        &lent.brought,
        lent.register,
        lent.defaults,
        lent.premiums,
        trial.size(Place::Back),
    );
    print::moved(rt, reply.answer)?;
    Ok(reply.walk)
}

fn open(rt: &impl Print, lent: &mut Lent) -> io::Result<Walk> {
    let walk = Walk::fresh();
    let reply = walk.open(&lent.brought, lent.register, lent.defaults, lent.premiums);
    print::opened(rt, reply.answer)?;
    Ok(reply.walk)
}

// Open unless the walk is made up, back, value and ratio.
pub fn walk(rt: &impl Print, trial: Trial, lent: &mut Lent) -> io::Result<()> {
    let first = if trial.get(Place::MadeUp) == 1 {
        held(trial)
    } else {
        open(rt, lent)?
    };
    let moved = back(rt, trial, first, lent)?;
    let valued = value(rt, trial, moved, lent)?;
    ratio(rt, trial, valued, lent)
}

// Forward, with Q(0), Q(1) and the last of the row.
pub fn forward(rt: &impl Print, trial: Trial, lent: &Lent, row: &mut [u64]) -> io::Result<()> {
    let answer = walk::forward(
        &lent.brought,
        lent.register,
        row,
        trial.size(Place::Forward),
    );
    print::distribution(rt, answer, row)
}
