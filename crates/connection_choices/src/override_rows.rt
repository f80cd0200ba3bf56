//! Rows of what was chosen for connections, in the order of one end of the connections and then of
//! the other.

ghost use Rattle.std.specs.Prelude.{◌≡◌, ◌+◌, ◌-◌, ◌<◌, ◌≤◌, None, IfOk, IfErr, if◌then◌else◌, is_some, length, slice_range};
ghost use Rattle.std.specs.List.Sorted.{IsSearchInRange};
ghost use Rattle.std.specs.FinMap as map;
ghost use Rattle.connection_choices.specs.OverrideRows.{AreSorted, IsGapAt, IsRowAt, choice_in, end_cmp, event_across, event_at, rows_at, rows_without};

use block_lists::{BlockList, Elements};
use delay_model::overrides::{Connection, Override};
use mt_base::keys::Node;
use std::cmp::Ordering;

/// One of the two ends of a connection.
#[derive(Clone, Copy, Debug, PartialEq, Eq)]
pub(crate) enum End {
    Arrival,
    Departure,
}

impl End {
    /// The event at this end of a connection.
    pub(crate) fn event(&self, connection: &Connection) -> Node
        ensures { result ≡ event_at self.now connection.now }
    {
        match self {
            End::Arrival => connection.arrival,
            End::Departure => connection.departure,
        }
    }

    /// The event at the other end.
    pub(crate) fn across(&self, connection: &Connection) -> Node
        ensures { result ≡ event_across self.now connection.now }
    {
        match self {
            End::Arrival => connection.departure,
            End::Departure => connection.arrival,
        }
    }

    /// The order of connections by this end, and then by the other.
    fn compare(&self, a: &Connection, b: &Connection) -> Ordering
        ensures { result ≡ end_cmp self.now a.now b.now }
    {
        let here = self.event(a).cmp(&self.event(b));
        here.then(self.across(a).cmp(&self.across(b)))
    }
}

/// The place of a connection among rows in order, or the place where it would be inserted.
pub(crate) fn search(
    rows: &BlockList<(Connection, Override)>,
    end: End,
    connection: &Connection,
) -> Result<usize, usize>
    requires { AreSorted end rows.now.items }
    ensures within { IsSearchInRange result (length rows.now.items) }
    ensures found { IfOk result (IsRowAt end connection.now rows.now.items) }
    ensures absent { IfErr result (IsGapAt end connection.now rows.now.items) }
{
    rows.binary_search_by(|row| end.compare(&row.0, connection))
}

/// Puts a choice in its place, for what was chosen for the connection before. It takes no memory.
pub(crate) fn put(
    rows: &mut BlockList<(Connection, Override)>,
    end: End,
    connection: &Connection,
    choice: Override,
)
    requires sorted { AreSorted end rows.old.items }
    requires room { choice_in end connection.now rows.old.items ≡ None → 0 < rows.old.room }
    ensures items { rows.new.items ≡ map.put (end_cmp end) connection.now choice rows.old.items }
    ensures room { rows.new.room
        ≡ (if is_some (choice_in end connection.now rows.old.items) then rows.old.room
        else rows.old.room - 1) }
{
    match search(rows, end, connection) {
        Ok(place) => {
            let (own, _) = *rows.get(place);
            rows.set(place, (own, choice));
        }
        Err(place) => rows.insert(place, (*connection, choice)),
    }
}

/// Takes the row of a connection out if there is one, and gives its room back.
pub(crate) fn take_out(
    rows: &mut BlockList<(Connection, Override)>,
    end: End,
    connection: &Connection,
)
    requires { AreSorted end rows.old.items }
    ensures items { rows.new.items ≡ rows_without end connection.now rows.old.items }
    ensures room { rows.new.room
        ≡ (if is_some (choice_in end connection.now rows.old.items) then rows.old.room + 1
        else rows.old.room) }
{
    if let Ok(place) = search(rows, end, connection) {
        let _ = rows.remove(place);
    }
}

/// The rows of the connections that have an event at the end by which the rows are in order.
pub(crate) fn rows_at<'a>(
    rows: &'a BlockList<(Connection, Override)>,
    end: End,
    event: &Node,
) -> Elements<'a, (Connection, Override)>
    requires { AreSorted end rows.now.items }
    ensures { result ≡ rows_at end event.now rows.now.items }
{
    let (first, last) = bounds(rows, end, event);
    rows.range(first, last)
}

/// Where these rows begin, and where they end.
fn bounds(rows: &BlockList<(Connection, Override)>, end: End, event: &Node) -> (usize, usize)
    requires { AreSorted end rows.now.items }
    ensures order { result.0 ≤ result.1 }
    ensures within { result.1 ≤ length rows.now.items }
    ensures rows { slice_range rows.now.items result.0 result.1
        ≡ rows_at end event.now rows.now.items }
{
    let first = rows.partition_point(|row| end.event(&row.0).cmp(event).is_lt());
    let last = rows.partition_point(|row| end.event(&row.0).cmp(event).is_le());
    (first, last)
}
