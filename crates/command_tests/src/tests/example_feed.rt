//! The feed of two trains, lines about it, and what is written of them.

use crate::tests::Table;

/// The tables of the feed of the two trains.
pub(super) const TABLES: [Table<'static>; 4] = [PLACES, TRAINS, CALLS, DAYS];

/// The same feed, in which T2 waits for T1.
pub(super) const WITH_RULES: [Table<'static>; 5] = [PLACES, TRAINS, CALLS, DAYS, WAITS];

pub(super) const PLACES: Table<'static> = ("stops.txt", STOPS);

pub(super) const TRAINS: Table<'static> = ("trips.txt", TRIPS);

pub(super) const CALLS: Table<'static> = ("stop_times.txt", STOP_TIMES);

pub(super) const DAYS: Table<'static> = ("calendar.txt", CALENDAR);

pub(super) const WAITS: Table<'static> = ("waiting_rules.txt", RULES);

/// B1 and B2 are platforms of the station B.
pub(super) const STOPS: &str = "stop_id,stop_name,location_type,parent_station
A,Astadt,0,
B,Bruck,1,
B1,Bruck 1,0,B
B2,Bruck 2,0,B
C,Cella,0,
D,Dorf,0,
";

/// Both trips are of the service W.
pub(super) const TRIPS: &str = "route_id,service_id,trip_id
R1,W,T1
R2,W,T2
";

/// The service W runs from Monday to Friday.
pub(super) const CALENDAR: &str =
    "service_id,monday,tuesday,wednesday,thursday,friday,saturday,sunday,start_date,end_date
W,1,1,1,1,1,0,0,20260101,20261231
";

/// T1 runs A, B1, C and T2 runs B2, D.
pub(super) const STOP_TIMES: &str = "trip_id,arrival_time,departure_time,stop_id,stop_sequence
T1,08:00:00,08:00:00,A,1
T1,08:30:00,08:32:00,B1,2
T1,09:00:00,09:00:00,C,3
T2,08:36:00,08:36:00,B2,1
T2,09:10:00,09:10:00,D,2
";

/// The first line of each table of times.
pub(super) const HEADER: &str = "trip,date,call,stop,event,scheduled,time\n";

/// The times of T1 as scheduled.
pub(super) const T1: &str = "T1,20260105,0,A,dep,08:00:00,08:00:00
T1,20260105,1,B1,arr,08:30:00,08:30:00
T1,20260105,1,B1,dep,08:32:00,08:32:00
T1,20260105,2,C,arr,09:00:00,09:00:00
";

/// The times of T1 where it leaves A at 08:10:00.
pub(super) const T1_LATE: &str = "T1,20260105,0,A,dep,08:00:00,08:10:00
T1,20260105,1,B1,arr,08:30:00,08:37:54
T1,20260105,1,B1,dep,08:32:00,08:38:54
T1,20260105,2,C,arr,09:00:00,09:04:57
";

/// The times of T1 where it arrives at B1 at 08:38:01, and no ride is made faster.
pub(super) const T1_MISSED: &str = "T1,20260105,0,A,dep,08:00:00,08:00:00
T1,20260105,1,B1,arr,08:30:00,08:38:01
T1,20260105,1,B1,dep,08:32:00,08:39:01
T1,20260105,2,C,arr,09:00:00,09:07:01
";

/// The times of T2 as scheduled.
pub(super) const T2: &str = "T2,20260105,0,B2,dep,08:36:00,08:36:00
T2,20260105,1,D,arr,09:10:00,09:10:00
";

/// The times of T2 where it waits for T1, which leaves A at 08:10:00.
pub(super) const T2_HELD: &str = "T2,20260105,0,B2,dep,08:36:00,08:40:54
T2,20260105,1,D,arr,09:10:00,09:12:32
";

/// The times of X1 where it has left A at 09:25:00.
pub(super) const X1: &str = "X1,20260105,0,A,dep,09:20:00,09:25:00
X1,20260105,1,D,arr,10:00:00,10:02:12
";

/// T1 leaves A at 08:10:00.
pub(super) const FORECAST: &str =
    r#"{"v":1,"type":"forecast","trip":"T1","date":"20260105","call":0,"event":"dep","time":"08:10:00"}"#;

/// A forecast of a train that the feed does not have.
pub(super) const NO_TRAIN: &str =
    r#"{"v":1,"type":"forecast","trip":"T9","date":"20260105","call":0,"event":"dep","time":"08:10:00"}"#;

/// T1 has left A at 08:10:00.
pub(super) const REPORT: &str =
    r#"{"v":1,"type":"report","trip":"T1","date":"20260105","call":0,"event":"dep","time":"08:10:00"}"#;

/// T1 has arrived at B1 at 08:04:00.
pub(super) const EARLIER: &str =
    r#"{"v":1,"type":"report","trip":"T1","date":"20260105","call":1,"event":"arr","time":"08:04:00"}"#;

/// T2 waits for T1.
pub(super) const KEEP: &str =
    r#"{"v":1,"type":"keep","feeder":{"trip":"T1","date":"20260105","call":1},"train":{"trip":"T2","date":"20260105","call":0}}"#;

/// T1 does not run.
pub(super) const CANCEL: &str =
    r#"{"v":1,"type":"cancel","trip":"T1","date":"20260105","from":0,"to":2}"#;

/// X1 runs from A to D, and has left A at 09:25:00.
pub(super) const EXTRA: &str =
    r#"{"v":1,"type":"extra","trip":"X1","date":"20260105","route":"R1","calls":[{"stop":"A","arr":"09:20:00","dep":"09:20:00"},{"stop":"D","arr":"10:00:00","dep":"10:00:00"}]}
{"v":1,"type":"report","trip":"X1","date":"20260105","call":0,"event":"dep","time":"09:25:00"}"#;

/// X1 is to arrive at A before it leaves D.
pub(super) const BACKWARDS: &str =
    r#"{"v":1,"type":"extra","trip":"X1","date":"20260105","route":"R1","calls":[{"stop":"D","arr":"09:20:00","dep":"09:20:00"},{"stop":"A","arr":"09:10:00","dep":"09:10:00"}]}"#;

/// The replies to the extra train and its report.
pub(super) const EXTRA_REPLIES: &str = "{\"accepted\":1,\"changed\":2,\"line\":1}
{\"accepted\":2,\"changed\":2,\"line\":2}
";

/// The reply to the extra train that is to arrive before it leaves.
pub(super) const BACKWARDS_REPLY: &str =
    "{\"from\":{\"call\":0,\"date\":\"20260105\",\"event\":\"dep\",\"trip\":\"X1\"},\"line\":1,\"refused\":\"AgainstRank\",\"to\":{\"call\":1,\"date\":\"20260105\",\"event\":\"arr\",\"trip\":\"X1\"}}
";

/// The replies to a report, an earlier one behind it, a kept connection, and a flush.
pub(super) const REPLIES: &str = "{\"accepted\":1,\"changed\":4,\"line\":1}
{\"event\":{\"call\":0,\"date\":\"20260105\",\"event\":\"dep\",\"trip\":\"T1\"},\"line\":2,\"refused\":\"Contradiction\",\"reported\":\"08:10:00\"}
{\"accepted\":2,\"changed\":2,\"line\":3}
{\"flush\":2,\"line\":4}
";

/// The reply to the forecast where it is the first line.
pub(super) const ACCEPTED: &str = "{\"accepted\":1,\"changed\":4,\"line\":1}\n";

/// Asks for the earliest arrival at D from A at 08:00:00.
pub(super) const QUERY: &str =
    r#"{"v":1,"type":"query","client":"c1","from":"A","to":"D","date":"20260105","time":"08:00:00"}"#;

/// T1 arrives at B1 at 08:38:01, which is too late for T2.
pub(super) const MISSED: &str =
    r#"{"v":1,"type":"forecast","trip":"T1","date":"20260105","call":1,"event":"arr","time":"08:38:01"}"#;

/// The replies to the query, to the forecast of T1, and to the query once more.
pub(super) const QUERY_REPLIES: &str =
    "{\"after\":0,\"arrives\":\"09:10:00\",\"line\":1,\"rides\":[{\"alight\":{\"call\":1,\"stop\":\"B1\",\"time\":\"08:30:00\"},\"board\":{\"call\":0,\"stop\":\"A\",\"time\":\"08:00:00\"},\"date\":\"20260105\",\"trip\":\"T1\"},{\"alight\":{\"call\":1,\"stop\":\"D\",\"time\":\"09:10:00\"},\"board\":{\"call\":0,\"stop\":\"B2\",\"time\":\"08:36:00\"},\"date\":\"20260105\",\"trip\":\"T2\"}]}
{\"accepted\":1,\"changed\":3,\"line\":2}
{\"after\":1,\"arrives\":null,\"line\":3}
";

/// The replies of `plans` to the query, to the forecast of T1, and to the query once more.
pub(super) const PLANS_REPLIES: &str =
    "{\"after\":0,\"line\":1,\"plans\":[{\"arrives\":\"09:10:00\",\"rides\":[{\"alight\":{\"call\":1,\"stop\":\"B1\",\"time\":\"08:30:00\"},\"board\":{\"call\":0,\"stop\":\"A\",\"time\":\"08:00:00\"},\"date\":\"20260105\",\"trip\":\"T1\"},{\"alight\":{\"call\":1,\"stop\":\"D\",\"time\":\"09:10:00\"},\"board\":{\"call\":0,\"stop\":\"B2\",\"time\":\"08:36:00\"},\"date\":\"20260105\",\"trip\":\"T2\"}]}]}
{\"accepted\":1,\"changed\":3,\"line\":2}
{\"after\":1,\"line\":3,\"plans\":[]}
";

/// T1 arrives at B1 at 08:30:00, as scheduled.
pub(super) const ON_TIME: &str =
    r#"{"v":1,"type":"forecast","trip":"T1","date":"20260105","call":1,"event":"arr","time":"08:30:00"}"#;

/// What `watch` writes to the query, to the forecast of T1, which breaks the journey before its
/// ride with T2, to the query once more, and to the forecast with which the journey can be taken
/// again.
pub(super) const WATCH_REPLIES: &str =
    "{\"after\":0,\"arrives\":\"09:10:00\",\"line\":1,\"rides\":[{\"alight\":{\"call\":1,\"stop\":\"B1\",\"time\":\"08:30:00\"},\"board\":{\"call\":0,\"stop\":\"A\",\"time\":\"08:00:00\"},\"date\":\"20260105\",\"trip\":\"T1\"},{\"alight\":{\"call\":1,\"stop\":\"D\",\"time\":\"09:10:00\"},\"board\":{\"call\":0,\"stop\":\"B2\",\"time\":\"08:36:00\"},\"date\":\"20260105\",\"trip\":\"T2\"}],\"watched\":true}
{\"accepted\":1,\"changed\":3,\"line\":2}
{\"alert\":1,\"broken\":1,\"line\":2}
{\"after\":1,\"arrives\":null,\"line\":3,\"watched\":false}
{\"accepted\":2,\"changed\":3,\"line\":4}
{\"alert\":1,\"arrives\":\"09:10:00\",\"line\":4}
";

/// Claims that no journey from A to D at 08:00:00 arrives before 09:10:00.
pub(super) const CLAIM: &str =
    r#"{"v":2,"type":"claim","client":"c1","from":"A","to":"D","date":"20260105","time":"08:00:00","arrives":"09:10:00","rides":[{"trip":"T1","date":"20260105","board":0,"alight":1},{"trip":"T2","date":"20260105","board":0,"alight":1}],"reached":[{"stop":"B1","time":"08:30:00"},{"stop":"C","time":"09:00:00"}]}"#;

/// The replies to the claim, to the forecast of T1, to the claim once more, and to the query.
pub(super) const CLAIM_REPLIES: &str = "{\"claim\":true,\"line\":1}
{\"accepted\":1,\"changed\":3,\"line\":2}
{\"claim\":false,\"line\":3}
{\"after\":1,\"arrives\":null,\"line\":4,\"reached\":[{\"stop\":\"B1\",\"time\":\"08:38:01\"},{\"stop\":\"C\",\"time\":\"09:07:01\"}]}
";

/// Queries from a station to its platform, from a place that is not there, and on a day that is not
/// loaded.
pub(super) const SHORT_QUERIES: &str =
    r#"{"v":1,"type":"query","client":"c1","from":"B","to":"B1","date":"20260105","time":"08:00:00"}
{"v":1,"type":"query","client":"c1","from":"Z","to":"D","date":"20260105","time":"08:00:00"}
{"v":1,"type":"query","client":"c1","from":"A","to":"D","date":"20260106","time":"08:00:00"}"#;

/// The replies to these queries.
pub(super) const SHORT_REPLIES: &str =
    "{\"after\":0,\"arrives\":\"08:00:00\",\"line\":1,\"rides\":[]}
{\"bad\":\"stop\",\"line\":2}
{\"bad\":\"time\",\"line\":3}
";

/// Trains of the route R2 wait 300 seconds for those of R1.
const RULES: &str = "feeder_route_id,connecting_route_id,stop_id,max_wait
R1,R2,,300
";

/// T1 arrives at B1 at 08:36:00, and T2 waits for it.
pub(super) const HELD: &str =
    r#"{"v":1,"type":"forecast","trip":"T1","date":"20260105","call":1,"event":"arr","time":"08:36:00"}"#;

/// Asks how many messages were accepted.
pub(super) const FLUSH: &str = r#"{"v":1,"type":"flush"}"#;

/// How the program is called, as the error stream has it.
pub(super) const USAGE: &str = "traind: usage: traind COMMAND FEED --from DATE or traind gen N\n";

/// Asks why T2 arrives when it does, what departs next from the station B, and why T2 departs from
/// its last call, which it does not.
pub(super) const QUESTIONS: &str =
    r#"{"v":1,"type":"why","trip":"T2","date":"20260105","call":1,"event":"arr"}
{"v":1,"type":"departures","client":"c1","stop":"B","date":"20260105","time":"08:33:00","rows":2}
{"v":1,"type":"why","trip":"T2","date":"20260105","call":1,"event":"dep"}"#;

/// The replies to the forecast of T1 and to these questions, where T2 waits for T1.
pub(super) const DESK_REPLIES: &str = r#"{"accepted":1,"changed":5,"line":1}
{"after":1,"because":[{"by":"run","call":1,"date":"20260105","event":"arr","time":"09:13:00","trip":"T2"},{"by":"hold","call":0,"date":"20260105","event":"dep","time":"08:39:00","trip":"T2"},{"by":"forecast","call":1,"date":"20260105","event":"arr","time":"08:36:00","trip":"T1"}],"line":2}
{"after":1,"departures":[{"call":1,"date":"20260105","scheduled":"08:32:00","stop":"B1","time":"08:37:00","to":"C","trip":"T1"},{"call":0,"date":"20260105","scheduled":"08:36:00","stop":"B2","time":"08:39:00","to":"D","trip":"T2"}],"line":3}
{"line":4,"refused":"Unknown"}
"#;
