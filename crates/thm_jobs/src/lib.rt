// Theorems only: jobs written and read, both ways, and what 'the first record that doesn't fit' means.
#![tactic(auto)]
