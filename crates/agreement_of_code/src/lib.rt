// Every trace of the code is accepted: theorems, and no code. What a run of the code is stands in specs/CodeRuns.antt.
#![tactic(auto)]
