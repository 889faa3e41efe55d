// No code: what unitdump writes of a line that send and fill put out.

#![tactic(auto)]
