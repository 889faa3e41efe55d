// What a console prints: the answers of its calls, the link's fields, the slots, the grammar. Each call of this crate puts its lines behind
// what the text holds. Where memory runs out, the text may hold the first of the lines.

#![tactic(auto)]

pub mod answers;
pub mod fields;
pub mod grammar;
pub mod slots;
