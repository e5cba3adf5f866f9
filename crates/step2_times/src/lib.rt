// The total time and the replaced acceleration of each attempt of the five shapes.
// There is no function here: the statements' definitions are in specs/, the facts in proofs/,
// for other crates' proofs to cite.

#![tactic(auto)]
