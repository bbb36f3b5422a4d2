// Definitions, in specs/, and laws, in proofs/: no code.
#![tactic(auto)]
