// An accepted move of any of the shapes arrives, in the duration that was asked for, and keeps its limits.
// There is no function here: the definitions are in specs/, the theorems in proofs/, for other crates' proofs to cite.

#![tactic(auto)]
