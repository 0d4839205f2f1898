// Theorems only: no code. A LUN's number of blank blocks is what the walk over its counts gives.
#![tactic(auto)]
