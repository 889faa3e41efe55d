// What is promised to a host in C or Rust. There is no code here.

#![tactic(auto)]
