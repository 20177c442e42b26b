// From the card's records to demand 3: stated in specs/ and proved in proofs/. There is no code here.
#![tactic(auto)]
