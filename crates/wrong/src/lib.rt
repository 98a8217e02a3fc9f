// Wrong engines, each refuted: see specs/ and proofs/.

#![tactic(auto)]
