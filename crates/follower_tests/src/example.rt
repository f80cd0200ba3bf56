//! A feed of two trains, a journal about it, and the times of the trains.

ghost use Rattle.std.specs.Prelude.{IfOk};
ghost use Rattle.mt_base.specs.Civil.{IsCivil};
ghost use Rattle.mt_base.specs.Options.{IsInRange};
ghost use Rattle.schedule_build.specs.InStep.{AreInStep};

use command_words::default_options;
use commands::{LoadedTimetable, load_timetable};
use journal_follower::Leader;
use journal_lines::Head;
use mt_base::Opts;
use mt_io::MemFeed;
use service_zones::Zone;
use std::alloc::Global;
use std::test::Fail;

/// The service day of the trains as the number YYYYMMDD.
const SERVICE_DAY: u32 = 20_260_105;

/// The tables of the feed, by their names. T2 waits for T1 for five minutes.
const TABLES: [(&str, &str); 5] = [
    (
        "stops.txt",
        "stop_id,stop_name,location_type,parent_station
A,Astadt,0,
B,Bruck,1,
B1,Bruck 1,0,B
B2,Bruck 2,0,B
C,Cella,0,
D,Dorf,0,
",
    ),
    (
        "trips.txt",
        "route_id,service_id,trip_id
R1,W,T1
R2,W,T2
",
    ),
    (
        "stop_times.txt",
        "trip_id,arrival_time,departure_time,stop_id,stop_sequence
T1,08:00:00,08:00:00,A,1
T1,08:30:00,08:32:00,B1,2
T1,09:00:00,09:00:00,C,3
T2,08:36:00,08:36:00,B2,1
T2,09:10:00,09:10:00,D,2
",
    ),
    (
        "calendar.txt",
        "service_id,monday,tuesday,wednesday,thursday,friday,saturday,sunday,start_date,end_date
W,1,1,1,1,1,0,0,20260101,20261231
",
    ),
    (
        "waiting_rules.txt",
        "feeder_route_id,connecting_route_id,stop_id,max_wait
R1,R2,,300
",
    ),
];

/// The journal of one message: T1 is expected at its second call at 08:36:00.
pub(crate) const JOURNAL: &str =
    r#"{"change":180,"days":1,"from":"20260105","journal":1,"overrides":10000,"slack":0,"spare_calls":4000,"spare_trains":200,"stop":60,"window":1800,"zone":null}
{"call":1,"date":"20260105","event":"arr","time":"08:36:00","trip":"T1","type":"forecast","v":2}
"#;

/// The times of the trains as scheduled.
pub(crate) const SCHEDULED: &str = "T1,20260105,0,A,dep,08:00:00,08:00:00
T1,20260105,1,B1,arr,08:30:00,08:30:00
T1,20260105,1,B1,dep,08:32:00,08:32:00
T1,20260105,2,C,arr,09:00:00,09:00:00
T2,20260105,0,B2,dep,08:36:00,08:36:00
T2,20260105,1,D,arr,09:10:00,09:10:00
";

/// The times of the trains behind the message of the journal.
pub(crate) const LATE: &str = "T1,20260105,0,A,dep,08:00:00,08:00:00
T1,20260105,1,B1,arr,08:30:00,08:36:00
T1,20260105,1,B1,dep,08:32:00,08:37:00
T1,20260105,2,C,arr,09:00:00,09:05:00
T2,20260105,0,B2,dep,08:36:00,08:39:00
T2,20260105,1,D,arr,09:10:00,09:13:00
";

/// The usual options, but that no ride is made faster.
fn options() -> Opts
    ensures { IsInRange result }
{
    let mut opts = default_options();
    opts.slack = 0;
    opts
}

/// The feed.
fn example_feed(alloc: Global) -> Result<MemFeed, Fail> {
    let mut feed = MemFeed::build(alloc, Vec::new(alloc));
    for (name, text) in &TABLES {
        feed.add("feed", name, Vec::from_slice(alloc, text.as_bytes())?)?;
    }
    Ok(feed)
}

/// The timetable of the feed, with its names.
fn loaded(alloc: Global) -> Result<LoadedTimetable, Fail>
    ensures in_step { IfOk result (λ l. AreInStep l.directory l.timetable.state) }
{
    let mut feed = example_feed(alloc)?;
    Ok(load_timetable(
        alloc,
        "feed",
        SERVICE_DAY,
        1,
        &Zone::utc(),
        &options(),
        &mut feed,
    )?)
}

/// What a follower of the journal begins with.
pub(crate) fn leader(alloc: Global) -> Result<Leader, Fail>
    ensures head { IfOk result (λ l. IsCivil l.head.first) }
    ensures in_step { IfOk result (λ l. AreInStep l.directory l.timetable.state) }
{
    let loaded = loaded(alloc)?;
    let head = Head {
        first: SERVICE_DAY,
        days: 1,
        opts: options(),
        zone: None,
    };
    Ok(Leader {
        head,
        timetable: loaded.timetable,
        directory: loaded.directory,
    })
}
