//! How the publisher meets a viewer.

ghost use Rattle.std.specs.Prelude.{◌≡◌};
ghost use Rattle.snapshot_board.specs.Knowledge.{LearnsNote};
ghost use Rattle.snapshot_board.specs.Meetings.{IsMeeting};

use crate::note::Note;
use crate::published::Opening;
use crate::publisher::PublisherOver;
use crate::publishing::BoardWriter;
use crate::replay::Replay;
use crate::viewer::Viewer;
use std::alloc::Allocator;

/// What `meet` finds: how much the viewer had seen, and how much was posted.
#[derive(Clone, Copy, Debug, PartialEq, Eq)]
pub enum Meet {
    /// What the viewer had seen is a beginning of what was posted.
    Within {
        /// How many messages the viewer had seen.
        viewer: u64,
        /// How many were posted.
        publisher: u64,
    },
    /// The viewer had seen more than was posted.
    Apart {
        /// How many messages the viewer had seen.
        viewer: u64,
        /// How many were posted.
        publisher: u64,
    },
}

impl<S: Replay, H: Opening<S::State>, A: Allocator> PublisherOver<BoardWriter<S, H, A>, S::Msg, H> {
    /// Tells whether what the viewer had seen is a beginning of what was posted. The viewer learns
    /// the note, which is of all that was posted.
    pub fn meet(&self, v: &mut Viewer<S, H, A>, n: Note<S::Msg, H>) -> Meet
        requires { n ≡ self.now }
        ensures met { IsMeeting result v.old.seen self.now }
        ensures learns { LearnsNote self.now v.old v.new }
    {
        let viewer = v.seen();
        let publisher = self.count();
        let within = v.has_within(&n);
        v.learn(n);
        if within {
            Meet::Within { viewer, publisher }
        } else {
            Meet::Apart { viewer, publisher }
        }
    }
}
