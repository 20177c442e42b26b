// Words for lists and for functions of the index, defined in specs/, with their laws in proofs/. There is no code here.
#![tactic(auto)]
