// What a trial lends but for its register, made from its numbers.

#![tactic(auto)]

pub mod lengths; // lengths.rt: the lengths of what it lends
pub mod lent_rows; // lent_rows.rt: rows
pub mod sheet_lists; // sheet_lists.rt: the numbers of a sheet's lists
pub mod spans; // spans.rt: its sheet
