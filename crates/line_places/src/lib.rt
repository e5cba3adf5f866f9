// Theorems only: what the lent places hold after the line entry, place by place.

#![tactic(auto)]
