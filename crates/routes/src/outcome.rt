//! What a search for the longest routes answers.

/// What the routes through a network are.
#[derive(Clone, Copy, PartialEq, Eq, Debug)]
pub struct Routes {
    /// Whether no pair is held: from none can a packet circle or run dry.
    pub arriving: bool,
    /// How many pairs are held.
    pub held: usize,
}
