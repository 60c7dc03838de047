// Some of what `demands` promises, said of the functions' own answers: theorems alone, in proofs/Promises.antt.
#![tactic(auto)]
