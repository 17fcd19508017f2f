//! The stream on plain values, and the proof of its law: definitions and lemmas, and no code.
//!
//! `specs/` has what a stream is set up with, what it holds, what each call answers and leaves, runs, SQL's groups and the
//! law over runs. `proofs/` shows that the law holds of every run.

#![tactic(auto)]
