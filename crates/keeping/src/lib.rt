// Theorems only: what each rule of the pool keeps. The definitions that they are stated in are in specs/, the laws in proofs/.
#![tactic(auto)]
