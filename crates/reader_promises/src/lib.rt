// What every reader promises, in one form and in one place: proofs/Promises.antt. There is no code to run.
#![tactic(auto)]
