// What replay is, and the theorem of demand 3: definitions and laws, without code.
#![tactic(auto)]
