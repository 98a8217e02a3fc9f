// A trial: its numbers, its registers, and how it is told.

#![tactic(auto)]

pub mod numbers; // numbers.rt: the numbers of a trial
pub mod parts; // parts.rt: the first of a list
pub mod place; // place.rt: the places of a trial's numbers, and their words
pub mod print; // print.rt: numbers and answers
pub mod registers; // registers.rt: registers that a trial lends
