//! The chain of events that decides the time of an event.

ghost use Rattle.std.specs.Prelude.{◌≡◌, ◌+◌, ◌≤◌, IfOk};
ghost use Rattle.std.specs.Option.{option_to_list};
ghost use Rattle.cause_laws.specs.Chains.{origin, why};
ghost use Rattle.event_causes.specs.Following.{links_from, reads_of, why_after};

use crate::cause::cause;
use cause_laws::causes::{Cause, Link};
use mt_base::keys::{Key, Node};
use mt_base::memory::OutOfMemory;
use std::alloc::Global;
use std::sync::ledger::Ledger;
use timetable::Timetable;
use train_nodes::Steps;

/// The event that a cause names; none where it names none.
fn origin(cause: &Cause) -> Option<Key>
    ensures { result ≡ origin cause.now }
{
    match cause {
        Cause::Report | Cause::Schedule | Cause::Forecast => None,
        Cause::Capped { by } => Some(*by),
        Cause::Run { from } | Cause::Stop { from } | Cause::Hold { from } | Cause::Kept { from } =>
            Some(*from),
    }
}

/// The first link of the chain of the live event of a name; none where no live event has it.
fn first_link<L: Ledger>(t: &Timetable, n: &Node, steps: &mut Steps<L>) -> Option<Link>
    ensures link { why t.now.network t.now.state n.now
        ≡ links_from t.now.network t.now.state result }
    ensures cost { steps.new ≤ steps.old
        + reads_of t.now.network t.now.state (option_to_list result) }
{
    t.state_is_valid();
    let time = t.time(*n, steps)?;
    let at = t.graph().trains().event(*n);
    let cause = cause(t, &at, time, steps);
    Some(Link {
        event: at.key,
        time,
        cause,
    })
}

/// The link after this one; none at the end of the chain.
fn next_link<L: Ledger>(t: &Timetable, link: &Link, steps: &mut Steps<L>) -> Option<Link>
    ensures link { why_after t.now.network t.now.state (origin link.now.cause)
        ≡ links_from t.now.network t.now.state result }
    ensures cost { steps.new ≤ steps.old
        + reads_of t.now.network t.now.state (option_to_list result) }
{
    match origin(&link.cause) {
        None => None,
        Some(key) => first_link(t, &key.node(), steps),
    }
}

/// The chain that decides the time of the live event of a name, from the event back; no link where
/// no live event has the name. For each link at most the time of its event is read, and the times of
/// the events from which edges lead to it. `OutOfMemory` where there is no memory.
pub fn why<L: Ledger>(
    alloc: Global,
    t: &Timetable,
    n: Node,
    steps: &mut Steps<L>,
) -> Result<Vec<Link>, OutOfMemory>
    ensures chain { IfOk result (λ links. links.items ≡ why t.now.network t.now.state n) }
    ensures cost { IfOk result (λ links. steps.new ≤ steps.old
        + reads_of t.now.network t.now.state links.items) }
{
    let mut links = Vec::new(alloc);
    let mut next = first_link(t, &n, steps);
    while let Some(link) = next {
        links.push(link)?;
        next = next_link(t, &link, steps);
    }
    Ok(links)
}
