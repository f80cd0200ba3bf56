//! The kept edges at an event, found by what was chosen.

ghost use Rattle.std.specs.Prelude.{◌≡◌, [], flat_map, unwrap_or};
ghost use Rattle.std.specs.Option.{option_to_list};
ghost use Rattle.std.specs.Iterator.{YieldsFirst, item_count};
ghost use Rattle.edge_rules.specs.Found.{kept_at, kept_with, of_name};

use crate::graph::Graph;
use delay_model::state::{Edge, Event};
use mt_base::keys::Node;
use std::marker::Model;
use train_nodes::Keeps;

/// The kept edges that lead to an event or leave it. It is seen as the list of those that are still
/// to come.
#[derive(Drop)]
pub(crate) struct KeptEdges<'a> {
    graph: &'a Graph,
    /// Whether the edges lead to the event.
    into: bool,
    at: Event,
    /// The events at the other end that are still to come.
    names: Keeps<'a>,
}

impl<'a> Model for KeptEdges<'a> {
    ghost use Rattle.std.specs.Prelude.{List, flat_map};
    ghost use Rattle.delay_model.specs.declared.state.Edge.{Edge};
    ghost use Rattle.edge_rules.specs.Found.{of_name, kept_with};

    ghost Value = { List Edge };

    ghost view = { λ a. flat_map (of_name a.graph.now.state (kept_with a.graph.now a.into a.at))
        a.names };
}

impl<'a> Iterator for KeptEdges<'a> {
    type Item = Edge;

    ghost next_gives = { YieldsFirst (λ s. s) };

    ghost remaining = { item_count (λ s. s) };

    fn next(&mut self) -> Option<Edge> {
        next_kept(self.graph, self.into, &self.at, &mut self.names)
    }
}

/// The kept edges that lead to an event (`into`) or leave it, if there can be any.
#[inline(always)]
#[tactic(auto, using(crate::proofs::NoneFound::none_found))]
pub(crate) fn kept_edges<'a>(graph: &'a Graph, into: bool, at: &Event) -> Option<KeptEdges<'a>>
    ensures { unwrap_or result [] ≡ kept_at graph.now into at.now }
{
    if at.key.dep != into {
        return None;
    }
    let trains = graph.trains();
    if trains.has_no_overrides() {
        return None;
    }
    let node = at.key.node();
    Some(KeptEdges {
        graph,
        into,
        at: *at,
        names: if into {
            trains.keeps_into(node)
        } else {
            trains.keeps_from(node)
        },
    })
}

/// The first kept edge between an event and those of these names, which takes the names up to that
/// one.
fn next_kept(graph: &Graph, into: bool, at: &Event, names: &mut Keeps<'_>) -> Option<Edge>
    ensures { YieldsFirst (flat_map (of_name graph.now.state
        (kept_with graph.now into at.now))) names.old result names.new }
{
    while let Some(name) = names.next() {
        if let Some(edge) = kept_edge(graph, into, at, name) {
            return Some(edge);
        }
    }
    None
}

/// The edge between an event and that of a name whose connection is kept, if there is one.
fn kept_edge(graph: &Graph, into: bool, at: &Event, name: Node) -> Option<Edge>
    ensures { option_to_list result
        ≡ of_name graph.now.state (kept_with graph.now into at.now) name }
{
    match graph.find_event(name) {
        None => None,
        Some(other) if into => graph.kept(&other, at),
        Some(other) => graph.kept(at, &other),
    }
}
