//! The feed that is made of two trains, and its lines.

use feed_gen::{GenFeed, GenLines};
use mt_io::{Feed, Source};
use std::test::Fail;

const TABLES: &str = "\
route_id,service_id,trip_id
R,ALL,G0
R,ALL,G1
trip_id,arrival_time,departure_time,stop_id,stop_sequence
G0,04:00:00,04:01:00,S0,0
G0,04:11:00,04:12:00,S10,1
G0,04:22:00,04:23:00,S20,2
G0,04:33:00,04:34:00,S30,3
G1,04:01:00,04:02:00,S7,0
G1,04:12:00,04:13:00,S17,1
G1,04:23:00,04:24:00,S27,2
G1,04:34:00,04:35:00,S37,3
service_id,monday,tuesday,wednesday,thursday,friday,saturday,sunday,start_date,end_date
ALL,1,1,1,1,1,1,1,20260101,20261231
feeder_route_id,connecting_route_id,stop_id,max_wait
,,,120
";

const LINES: &str = r#"
{"v":1,"type":"forecast","trip":"G0","date":"20260105","call":1,"event":"arr","time":"04:12:00"}
{"v":1,"type":"forecast","trip":"G1","date":"20260105","call":1,"event":"arr","time":"04:14:00"}
{"v":1,"type":"flush"}
{"v":1,"type":"query","client":"q","from":"S7","to":"S37","date":"20260105","time":"04:00:00"}
{"v":1,"type":"flush"}
"#;

#[test]
fn the_tables_of_two_trains(rt: HostRuntime) -> Result<(), Fail> {
    let mut feed = GenFeed::build(rt.alloc(), 2);
    let stops = feed.table("any", "stops.txt")?.ok_or("no stops")?;
    assert!(rt; stops.starts_with(b"stop_id\nS0\nS1\n"));
    assert!(rt; stops.ends_with(b"\nS98\nS99\n"));
    let mut bytes = Vec::new(rt.alloc());
    for name in ["trips", "stop_times", "calendar", "waiting_rules"] {
        let name = format!(in rt.alloc(); "{name}.txt")?;
        let table = feed.table("any", &name)?.ok_or("no table")?;
        bytes.extend_from_slice(&table)?;
    }
    assert_eq!(rt; bytes.as_slice(), TABLES.as_bytes());
    assert!(rt; matches!(feed.table("any", "transfers.txt"), Ok(None)));
    Ok(())
}

#[test]
fn the_lines_of_two_trains(rt: HostRuntime) -> Result<(), Fail> {
    let mut source = GenLines::build(rt.alloc(), 2)?;
    let mut bytes = Vec::from_slice(rt.alloc(), b"\n")?;
    let mut piece = [0; 7];
    for _ in 0..100 {
        let count = source.read(&mut piece)?;
        assert!(rt; count <= 7);
        bytes.extend_from_slice(&piece[..count])?;
    }
    assert_eq!(rt; bytes.as_slice(), LINES.as_bytes());
    assert_eq!(rt; source.read(&mut piece), Ok(0));
    Ok(())
}
