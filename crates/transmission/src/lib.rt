// No code: what sends and fills put on the line, over lists of calls.

#![tactic(auto)]
