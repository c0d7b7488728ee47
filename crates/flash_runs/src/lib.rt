// What holds of either driver over whole runs: no code, only specs/ and proofs/. Read specs/Promises.antt first.
#![tactic(auto)]
