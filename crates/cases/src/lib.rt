// The scope's table of proved cases, under one statement. There is no code here.

#![tactic(auto)]
