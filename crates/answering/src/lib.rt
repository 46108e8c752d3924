// Theorems only: the numbers that each call answers, and which of them leave a pool as it came. The statements' definitions are in specs/, the laws in proofs/.
#![tactic(auto)]
