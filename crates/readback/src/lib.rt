// No code: what is promised of send, fill and receive together.

#![tactic(auto)]
