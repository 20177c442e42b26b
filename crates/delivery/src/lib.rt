// Demand 3, stated in specs/ over the rules alone and proved in proofs/. There is no code here.
#![tactic(auto)]
