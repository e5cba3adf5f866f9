// Theorems only: the moves that document 01 works through, computed from the definitions.

#![tactic(auto)]
