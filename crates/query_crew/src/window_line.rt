//! What a line says in a window.

ghost use Rattle.std.specs.Prelude.{◌≡◌, ◌<◌, ◌^◌, Ok, IfOk, length};
ghost use Rattle.std.specs.List.{list_any};
ghost use Rattle.message_reader.specs.ResolvedQueries.{query_resolved};
ghost use Rattle.message_reader.specs.Wires.{IsLine, IsWireQuery};
ghost use Rattle.mt_io.specs.Lines.{short};
ghost use Rattle.information_service.specs.Lines.{said_by};
ghost use Rattle.query_crew.specs.WindowLines.{window_line, is_flush_line, asks, IsWindowLine};

use crate::clients::Client;
use message_reader::{
    AskedQuery, BadLine, Line, LineError, LineRoom, Wire, WireQuery, read_line, resolve_query,
};
use mt_base::memory::OutOfMemory;
use schedule_build::Directory;
use std::alloc::{AllocError, Global};

/// A query of a client.
#[derive(Drop)]
pub struct ClientQuery {
    /// Who asks.
    pub client: Client,

    /// The query with the numbers for which its names stand, or why its line is bad.
    pub asked: Result<AskedQuery, BadLine>,
}

/// What a line says in a window.
#[derive(Drop)]
pub enum WindowLine {
    /// A message, by names.
    Message(Wire),
    /// Asks for the earliest arrival.
    Query(ClientQuery),
    /// Asks how many messages were accepted so far.
    Flush,
    /// It is bad.
    Bad(BadLine),
}

impl WindowLine {
    /// Whether it is a flush.
    pub(crate) fn is_flush(&self) -> bool
        ensures { result ≡ is_flush_line self.now }
    {
        matches!(self, WindowLine::Flush)
    }

    /// Whether it asks something that a worker answers: it is a query, and its line is not bad.
    fn asks(&self) -> bool
        ensures { result ≡ asks self.now }
    {
        matches!(self, WindowLine::Query(ClientQuery { asked: Ok(_), .. }))
    }
}

/// Whether one of the lines asks something that a worker answers.
pub(crate) fn has_queries(lines: &[WindowLine]) -> bool
    ensures { result ≡ list_any asks lines.now }
{
    lines.iter().any(|line| line.asks())
}

/// A query, looked up in the directory.
fn client_query(directory: &Directory, query: WireQuery) -> ClientQuery
    requires { IsWireQuery query }
    ensures { result ≡ record {
      client = query.client;
      asked = query_resolved directory.now query;
    } }
{
    let asked = resolve_query(&query, directory);
    ClientQuery {
        client: Client::build(query.client),
        asked,
    }
}

/// What a line that says this says in a window.
fn line_in_window(directory: &Directory, said: Line) -> WindowLine
    requires { IsLine said }
    ensures said { result ≡ window_line directory.now (Ok said) }
    ensures kept { IsWindowLine result }
{
    match said {
        Line::Message(wire) => WindowLine::Message(wire),
        Line::Query(query) => WindowLine::Query(client_query(directory, query)),
        Line::Flush => WindowLine::Flush,
    }
}

/// What a line of the input, without its line end and of fewer than 2^31 bytes, says in a window.
/// The names of a query are looked up in the directory. `OutOfMemory` where there is no memory.
pub(crate) fn read_window_line(
    alloc: Global,
    directory: &Directory,
    room: &mut LineRoom,
    line: &[u8],
) -> Result<WindowLine, OutOfMemory>
    requires few { length line.now < 2 ^ 31 }
    ensures said { IfOk result (λ w. w ≡ window_line directory.now (said_by (short line.now))) }
    ensures kept { IfOk result IsWindowLine }
{
    match read_line(alloc, room, line) {
        Ok(said) => Ok(line_in_window(directory, said)),
        Err(LineError::Bad(bad)) => Ok(WindowLine::Bad(bad)),
        Err(LineError::OutOfMemory) => Err(AllocError),
    }
}
