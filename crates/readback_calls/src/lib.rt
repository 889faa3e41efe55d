// Read-back over lists of calls: what one booking sends, another receives, whatever other calls either makes. There is no code here.

#![tactic(auto)]
