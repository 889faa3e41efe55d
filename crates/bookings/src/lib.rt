// Theorems over lists of calls: isolation between bookings, the history of a booking, and its dropped units. There is no code here.

#![tactic(auto)]
