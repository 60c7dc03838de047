// What is promised of the definitions in `format`: theorems alone, stated together in proofs/Demands.antt.
#![tactic(auto)]
