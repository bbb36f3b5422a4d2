// The formulas, in specs/, and their laws, in proofs/: no code.
#![tactic(auto)]
