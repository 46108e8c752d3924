// Every trace of the layer that takes bytes is accepted: theorems, and no code. What such a trace is stands in specs/LayerRuns.antt.
#![tactic(auto)]
