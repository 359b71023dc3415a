// The worked examples that the readers were asked to meet, proved as one list in proofs/Promises.antt. There is no code to run.
#![tactic(auto)]
