// Agreement: every trace of the pool is accepted by the judge, under the premises of specs/Premises.antt. Theorems only: proofs/Accepted.antt has the last, and
// proofs/Replay.antt the same of what replay prints.
#![tactic(auto)]
