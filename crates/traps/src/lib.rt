//! Document 01, "Traps in this trade": two histories, worked from bytes to bytes by the rules. No code.
//! Promises upward: without the counts an epoch would close that must not, and an answer is not settled with its record's epoch (proofs/Traps).
#![tactic(auto)]
