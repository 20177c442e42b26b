// The three demands, stated in specs/ and proved in proofs/ from what stands below. There is no code here.
#![tactic(auto)]
