//! A question about departures, by number.

ghost use Rattle.std.specs.Prelude.{◌≡◌};
ghost use Rattle.desk_lines.specs.Questions.{departures_resolved, AreWireDepartures};

use crate::asked::WireDepartures;
use message_reader::{BadLine, stop_or_station, time_on};
use mt_base::numbers::{StopNo, Time};
use schedule_build::Directory;

/// Asks for the next departures of a station, by number.
#[derive(Clone, Copy, Debug, PartialEq, Eq)]
pub struct AskedDepartures {
    /// A stop of the station, or the station.
    pub place: StopNo,

    /// From when on, in seconds from the base of day 0.
    pub since: Time,

    /// How many departures at most, from 1 to 100.
    pub rows: u32,
}

/// The question with the numbers for which its names stand. The line that asks it is bad: `Stop`
/// where `stop` is no id of a stop or station, and otherwise `Time` where its date or its time of day
/// is none, or its date is not loaded.
#[tactic(auto, unfolding(crate::specs::Questions::departures_resolved))]
pub fn resolve_departures(
    asked: &WireDepartures,
    dir: &Directory,
) -> Result<AskedDepartures, BadLine>
    requires kept { AreWireDepartures asked.now }
    ensures { result ≡ departures_resolved dir.now asked.now }
{
    let place = stop_or_station(dir, asked.stop.text()).ok_or(BadLine::Stop)?;
    let time = asked.time.ok_or(BadLine::Time)?;
    let day = dir.day(time.date).ok_or(BadLine::Time)?;
    Ok(AskedDepartures {
        place,
        since: time_on(dir, day, time.secs),
        rows: asked.rows,
    })
}
