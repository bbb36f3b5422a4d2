// Tests over numbers, stores into lists and lists of members: definitions and laws in specs/, no code.
#![tactic(auto)]
