// Definitions and laws alone, in specs/.
#![tactic(auto)]
