// Theorems only: what replay prints, as a definition, and its laws.
#![tactic(auto)]
