// The ledger and demand 3's theorem over every list of calls, and the reference positions; there is no code here.
#![tactic(auto)]
