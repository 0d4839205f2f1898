// Theorems only: rule 13 never comes up in a run with its own buffers. What a step leaves is what a step may start from.
#![tactic(auto)]
