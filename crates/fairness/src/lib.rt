// The promise of turns among walks, kept by ours and by no other, and servers that break it: see specs/ and proofs/.

#![tactic(auto)]
