//! What comes back with a refusal.

/// What was passed, as it was, and why it was refused.
#[derive(Drop)]
pub struct Refused<T, F> {
    pub given: T,
    pub fault: F,
}
