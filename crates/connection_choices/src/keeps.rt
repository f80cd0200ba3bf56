//! Events that a kept connection joins with an event, one after another.

ghost use Rattle.std.specs.Iterator.{YieldsFirst, item_count};

use crate::override_rows::End;
use block_lists::Elements;
use delay_model::overrides::{Connection, Override};
use mt_base::keys::Node;
use std::marker::Model;

/// The events at the other end of the kept connections of an event, in their order. It is seen as
/// the list of those still to come.
#[derive(Drop)]
pub struct Keeps<'a> {
    /// The rows of the connections that are still to come.
    pub(crate) rows: Elements<'a, (Connection, Override)>,
    /// The end at which these have the event.
    pub(crate) end: End,
}

impl<'a> Model for Keeps<'a> {
    ghost use Rattle.std.specs.Prelude.{List};
    ghost use Rattle.mt_base.specs.declared.keys.Node.{Node};
    ghost use Rattle.connection_choices.specs.OverrideRows.{kept_across};

    ghost Value = { List Node };

    ghost view = { λ s. kept_across s.end s.rows };
}

impl<'a> Iterator for Keeps<'a> {
    type Item = Node;

    ghost next_gives = { YieldsFirst (λ s. s) };

    ghost remaining = { item_count (λ s. s) };

    fn next(&mut self) -> Option<Node> {
        while let Some((connection, choice)) = self.rows.next() {
            if choice == Override::Keep {
                return Some(self.end.across(&connection));
            }
        }
        None
    }
}
