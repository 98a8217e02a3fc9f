// Books with their lines, byte by byte, and reporters that break the promise, each refuted: see specs/ and proofs/.

#![tactic(auto)]
