// What is promised over lists of calls: when the alarm comes. There is no code here.

#![tactic(auto)]
