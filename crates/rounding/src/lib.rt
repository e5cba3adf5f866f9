// Exact values and rounding errors of f64s, and the seven-phase motion without rounding.
// There is no function here: the definitions are in specs/, the laws in proofs/, for other crates' proofs to cite.

#![tactic(auto)]
