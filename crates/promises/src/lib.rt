// What is promised of lists of records: theorems in proofs/ over what specs/ says, no code.
#![tactic(auto)]
