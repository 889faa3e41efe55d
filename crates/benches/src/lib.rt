// A theorem over lists of calls: two benches that are given the same line and commands show the same. There is no code here.

#![tactic(auto)]
