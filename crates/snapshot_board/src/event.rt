//! The steps of a board, one at a time.

/// One step.
#[derive(Clone, Copy, Debug, Drop, PartialEq, Eq)]
pub enum Event<M> {
    /// The publisher posts a message.
    Post(M),
    /// A viewer looks at the state after the first so many posts.
    Look {
        /// Which viewer.
        viewer: u32,
        /// How many posts it looks at.
        count: u64,
    },
    /// The publisher makes a note of the number of posts so far. Notes are numbered from 0.
    Tell,
    /// A viewer learns a note.
    Learn {
        /// Which viewer.
        viewer: u32,
        /// The number of the note.
        note: u64,
    },
}

/// What one viewer knows.
#[derive(Clone, Copy, Debug, PartialEq, Eq)]
pub struct ViewerCounts {
    /// How many posts it has seen.
    pub seen: u64,
    /// How many posts it has learnt of. It may look at no fewer.
    pub least: u64,
}
