// The calls of a trial: each is made on what the trial lends, and its answer is printed.

#![tactic(auto)]

mod calls; // calls.rt: the calls of the walk, each handing its walk to the next
pub mod sheets; // sheets.rt: all calls of a trial, in one line
