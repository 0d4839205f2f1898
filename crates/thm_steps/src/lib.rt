// Theorems only: each paragraph of document 01's "The steps", over the definition of one event that the code is proved to meet.
#![tactic(auto)]
