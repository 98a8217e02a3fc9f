// Exact and rounded values on the tree: definitions in specs/, laws in proofs/. The code that computes them stands in `rows`.

#![tactic(auto)]
