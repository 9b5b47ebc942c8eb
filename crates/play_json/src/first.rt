//! What the first object of a session tells.

/// What the first object of a session tells beside its reply.
#[derive(Clone, Copy)]
pub struct First {
    /// The seed of the story's random numbers, if it has any.
    pub seed: Option<u32>,
}
