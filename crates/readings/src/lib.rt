// What is promised of readings of logs for their sets: theorems in proofs/ over what specs/ says, no code.
#![tactic(auto)]
