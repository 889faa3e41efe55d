// No code: what the calls that are exported for C answer, and that nothing of a call is lost on the way.

#![tactic(auto)]
