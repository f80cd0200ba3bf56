//! The edges at an event, found one after another.

ghost use Rattle.std.specs.Iterator.{YieldsFirst, item_count};

use crate::kept::KeptEdges;
use crate::planned_from::PlannedFrom;
use crate::planned_into::PlannedInto;
use delay_model::state::Edge;
use std::marker::Model;

/// The edges at an event: the one along its train, and those between trains, which are found in the
/// index of events and among the connections that are kept. It is seen as the list of the edges
/// that are still to come.
#[derive(Drop)]
pub struct Edges<'a> {
    pub(crate) along: Option<Edge>,
    pub(crate) planned_into: Option<PlannedInto<'a>>,
    pub(crate) planned_from: Option<PlannedFrom<'a>>,
    pub(crate) kept: Option<KeptEdges<'a>>,
}

impl<'a> Model for Edges<'a> {
    ghost use Rattle.std.specs.Prelude.{List, [], ◌++◌, unwrap_or};
    ghost use Rattle.std.specs.Option.{option_to_list};
    ghost use Rattle.delay_model.specs.declared.state.Edge.{Edge};

    ghost Value = { List Edge };

    ghost view = { λ a. option_to_list a.along ++ (unwrap_or a.planned_into []
        ++ (unwrap_or a.planned_from [] ++ unwrap_or a.kept [])) };
}

impl<'a> Iterator for Edges<'a> {
    type Item = Edge;

    ghost next_gives = { YieldsFirst (λ s. s) };

    ghost remaining = { item_count (λ s. s) };

    fn next(&mut self) -> Option<Edge> {
        if let Some(edge) = self.along.take() {
            return Some(edge);
        }
        if let Some(planned) = &mut self.planned_into {
            if let Some(edge) = planned.next() {
                return Some(edge);
            }
        }
        if let Some(planned) = &mut self.planned_from {
            if let Some(edge) = planned.next() {
                return Some(edge);
            }
        }
        match &mut self.kept {
            Some(kept) => kept.next(),
            None => None,
        }
    }
}

/// The edges between trains that leave an event and may change the time of the event to which they
/// lead. It is seen as the list of those that are still to come.
#[derive(Drop)]
pub struct ChangingEdges<'a> {
    pub(crate) planned: Option<PlannedFrom<'a>>,
    pub(crate) kept: Option<KeptEdges<'a>>,
}

impl<'a> Model for ChangingEdges<'a> {
    ghost use Rattle.std.specs.Prelude.{List, [], ◌++◌, unwrap_or};
    ghost use Rattle.delay_model.specs.declared.state.Edge.{Edge};

    ghost Value = { List Edge };

    ghost view = { λ a. unwrap_or a.planned [] ++ unwrap_or a.kept [] };
}

impl<'a> Iterator for ChangingEdges<'a> {
    type Item = Edge;

    ghost next_gives = { YieldsFirst (λ s. s) };

    ghost remaining = { item_count (λ s. s) };

    fn next(&mut self) -> Option<Edge> {
        if let Some(planned) = &mut self.planned {
            if let Some(edge) = planned.next() {
                return Some(edge);
            }
        }
        match &mut self.kept {
            Some(kept) => kept.next(),
            None => None,
        }
    }
}
