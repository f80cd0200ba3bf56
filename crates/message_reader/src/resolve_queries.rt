//! Queries by name as queries by number.

ghost use Rattle.std.specs.Prelude.{◌≡◌};
ghost use Rattle.message_reader.specs.ResolvedQueries.{stop_or_station_named, query_places, query_resolved};
ghost use Rattle.message_reader.specs.Wires.{IsWireQuery};

use crate::bad_line::BadLine;
use crate::numbers::time_on;
use crate::wire::WireQuery;
use mt_base::journeys::Query;
use mt_base::numbers::{Day, StopNo};
use schedule_build::Directory;

/// A query by number.
#[derive(Clone, Copy, Debug, PartialEq, Eq)]
pub struct AskedQuery {
    /// The service day on which the time of the query lies.
    pub day: Day,

    /// Between which stops or stations, and from what time on.
    pub query: Query,
}

/// The stop or station with this id. None where no place has it, and where the place is neither.
#[tactic(auto, unfolding(crate::specs::ResolvedQueries::stop_or_station_named))]
pub fn stop_or_station(dir: &Directory, id: &str) -> Option<StopNo>
    ensures { result ≡ stop_or_station_named dir.now id.now }
{
    let place = dir.stop(id)?;
    if dir.stop_kind(place)?.is_platform_or_station() {
        Some(place)
    } else {
        None
    }
}

/// Whether the two places of a query are there: `Stop` where `from` or `to` is no id of a stop or
/// station.
#[tactic(auto, unfolding(crate::specs::ResolvedQueries::query_places))]
pub(crate) fn check_places(query: &WireQuery, dir: &Directory) -> Result<(), BadLine>
    ensures { result ≡ query_places dir.now query.now }
{
    stop_or_station(dir, query.from.text()).ok_or(BadLine::Stop)?;
    stop_or_station(dir, query.to.text()).ok_or(BadLine::Stop)?;
    Ok(())
}

/// The query with the numbers for which its names stand. The line that asks it is bad: `Stop` where
/// `from` or `to` is no id of a stop or station, and otherwise `Time` where its date or its time of
/// day is none, or its date is not loaded. Its time is in seconds from the base of day 0.
#[tactic(auto, unfolding(crate::specs::ResolvedQueries::query_resolved))]
pub fn resolve_query(query: &WireQuery, dir: &Directory) -> Result<AskedQuery, BadLine>
    requires kept { IsWireQuery query.now }
    ensures { result ≡ query_resolved dir.now query.now }
{
    let from_stop = stop_or_station(dir, query.from.text()).ok_or(BadLine::Stop)?;
    let to_stop = stop_or_station(dir, query.to.text()).ok_or(BadLine::Stop)?;
    let time = query.time.ok_or(BadLine::Time)?;
    let day = dir.day(time.date).ok_or(BadLine::Time)?;
    Ok(AskedQuery {
        day,
        query: Query {
            from_stop,
            to_stop,
            time: time_on(dir, day, time.secs),
        },
    })
}
