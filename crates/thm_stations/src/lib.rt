// Theorems only: stations that share one target, each with a LUN of its own, don't disturb each other (demand 3).
#![tactic(auto)]
