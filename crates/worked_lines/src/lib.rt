// Theorems only: for each attempt of the shapes a line that it answers, computed, and that the line arrives.

#![tactic(auto)]
