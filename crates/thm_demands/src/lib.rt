// Theorems only: what users were promised, over the definitions that the code is proved to meet.
#![tactic(auto)]
