// Theorems only: rule 13 lets pass no number that no run gives.
#![tactic(auto)]
