//! Any list of calls on a new stream, made one after the other.

#![tactic(auto)]

mod drive;
mod script;
#[cfg(test)]
mod tests;

pub use drive::run;
pub use script::{Answer, Buffers, Call, Reply, Run, Script, Stage};
