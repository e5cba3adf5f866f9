// What a yes of `check` says of the exact motion: it ends at the goal and keeps its limits.
// There is no function here: the definitions are in specs/, the theorem in proofs/, for other crates' proofs to cite.

#![tactic(auto)]
