// Decks with their listings, byte by byte: see specs/ and proofs/.

#![tactic(auto)]
