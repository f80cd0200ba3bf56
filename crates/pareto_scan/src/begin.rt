//! What is known before the first departure.

ghost use Rattle.std.specs.Prelude.{◌≡◌, ◌<◌, All, None, length, replicate};
ghost use Rattle.conn_scan.specs.Stations.{HasStations};
ghost use Rattle.pareto_scan.specs.Levels.{begun_level, begun_levels, HasLevelRoom, KeepsRoom};

use crate::level::Level;
use crate::riders::Riders;
use change_times::Changes;
use conn_scan::known::{Asked, open_origin};
use conn_scan::openings::lower;
use conn_scan::stop_rides::Stretch;

/// Notes where passengers of the query can board without a ride, if they may take a ride more, and
/// nothing else.
fn begin_level(changes: &Changes, asked: &Asked, more: bool, level: &mut Level)
    requires stations { HasStations changes.now asked.now }
    requires room { HasLevelRoom (length changes.now.stops) level.old }
    ensures { level.new ≡ begun_level changes.now asked.now.query more level.old }
{
    level.openings.times.clear();
    level.held.clear();
    level.best = None;
    if more {
        let straight: Option<Stretch> = None;
        let onward = changes.reach(asked.query.from_stop);
        lower(&mut level.openings, onward, asked.query.time, &straight);
        open_origin(changes, asked, &mut level.openings);
    }
}

/// Lets everybody alight, and notes after each number of rides where passengers of the query can
/// board without a ride, and nothing else.
pub(crate) fn begin(changes: &Changes, asked: &Asked, levels: &mut [Level], riders: &mut Riders)
    requires stations { HasStations changes.now asked.now }
    requires room { All (HasLevelRoom (length changes.now.stops)) levels.old }
    ensures levels { levels.new ≡ begun_levels changes.now asked.now.query levels.old }
    ensures riders { riders.new ≡ replicate (length riders.old) None }
    ensures room { KeepsRoom levels.old levels.new }
{
    riders.clear();
    for rides in 0..levels.len() {
        let more = rides + 1 < levels.len();
        begin_level(changes, asked, more, &mut levels[rides]);
    }
}
