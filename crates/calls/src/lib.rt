// The calls of a host, in one place. Each takes the link by value; what changes it gives it back. Their contracts stand where they are defined.

#![tactic(auto)]

pub use board::limits::link_sizes;
pub use board::rows::numbers;
pub use board::{Link, Settings};
pub use input::receive;
pub use link::{Counted, Refusal};
pub use link_booking::{open, wipe};
pub use link_commands::clearing::clear;
pub use link_commands::commands::command;
pub use link_slots::{hand_back, read, read_number};
pub use octet_input::receive_octets;
pub use output::{fill, send};
