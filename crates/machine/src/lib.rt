// The machine: definitions and theorems only, in specs/.

#![tactic(auto)]
