// Demand 3 of the exported functions: definitions and theorems only.

#![tactic(auto)]
