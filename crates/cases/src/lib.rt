// The worked examples of document 01, computed by the checker over the definitions: in specs/, no code.
#![tactic(auto)]
