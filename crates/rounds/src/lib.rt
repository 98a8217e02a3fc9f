// Places on a cycle and turns over many calls: see specs/ and proofs/.

#![tactic(auto)]
