// Theorems only: demand 3 over the characters of a line and of its reply.

#![tactic(auto)]
