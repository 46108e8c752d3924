// Theorems only: spare answers are ignored. What a call does with the first answers, it does with these and any that follow.
#![tactic(auto)]
