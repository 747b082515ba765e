// The claim, in specs/, and its proofs. There is no code.
#![tactic(auto)]
