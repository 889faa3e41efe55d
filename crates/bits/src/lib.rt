// Octets and bits of the line, lists of them, and machines that take one input at a time.
// This crate has no code: its definitions are in specs/, and its laws, which every other crate cites, in proofs/.

#![tactic(auto)]
