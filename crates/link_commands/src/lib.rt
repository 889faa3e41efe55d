// The calls that command a link and clear its event bits.

#![tactic(auto)]

pub mod clearing;
pub mod commands;
