//! Notes of what was posted.

ghost use Rattle.std.specs.Prelude.{◌≡◌};

use crate::history::{History, Prefix};
use std::marker::Model;

/// What the publisher had posted when it told. It is seen as these messages.
#[derive(Drop)]
pub struct Note<M, H: History> {
    pub(crate) prefix: Prefix<M, H>,
}

impl<M, H: History> Model for Note<M, H> {
    ghost use Rattle.std.specs.Prelude.{List};

    ghost Value = { List M };

    ghost view = { λ n. n.prefix };
}

impl<M, H: History> Note<M, H> {
    pub(crate) fn of(prefix: Prefix<M, H>) -> Note<M, H>
        ensures { result ≡ prefix }
    {
        Note { prefix }
    }

    /// A second note of the same messages, for another viewer.
    pub fn copy(&self) -> Note<M, H>
        ensures { result ≡ self.now }
    {
        Note {
            prefix: self.prefix.copy(),
        }
    }
}
