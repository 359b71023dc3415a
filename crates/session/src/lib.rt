// What the calls of a receiver come to over a whole session, however its bytes are cut into pieces: proofs/Promises.antt. There is no code
// to run.
#![tactic(auto)]
