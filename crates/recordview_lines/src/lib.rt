// Records of sixteen octets for people: a record's line, shared by those in a row that are the same but for their counts, and totals.

#![tactic(auto)]

mod headers;
pub mod lines;
mod names;
pub mod records_read;
pub mod totals;
pub mod viewer;
