// Theorems only: document 01's cases and the builds that would be of no use, as traces on the parts T1 and T2.
#![tactic(auto)]
