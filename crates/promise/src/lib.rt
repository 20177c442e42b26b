// What a rule gives and what an engine owes for it, defined in specs/ over any answer and any record, with the laws in proofs/. There is
// no code here.
#![tactic(auto)]
