//! Demand 3: what settled answers are worth. No code: definitions (specs/Statement), and the chain of theorems from the rules of a step on
//! bytes to it (proofs/, the last link in proofs/Demand3).
//! Promises upward: for every set key, number of slots and list of inputs, the statement of specs/Statement holds of the rules' step; for every
//! log that of specs/Logs holds of the rules' run (proofs/RunOver).
#![tactic(auto)]
