// The machine that runs a deck: its state, and what each order answers and leaves. See specs/ and proofs/.

#![tactic(auto)]
