// What is found between two flags, said without the machine. There is no code here.

#![tactic(auto)]
