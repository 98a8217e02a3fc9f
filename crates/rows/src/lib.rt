// The rows of a walk: what they hold, and one step back.

#![tactic(auto)]

pub mod step; // step.rt: one step back
pub mod table; // table.rt: the rows of a table
