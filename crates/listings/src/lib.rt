// What a deck prints and leaves: definitions and laws, no code.

#![tactic(auto)]
