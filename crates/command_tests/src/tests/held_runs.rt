//! Runs of `serve` whose threads wait for one another: their lines, which thread is held where, and
//! what may be written.

use crate::tests::example_feed::{FLUSH, HELD, MISSED};
use mt_io::Point;

/// A run of `serve` on the feed with a waiting rule, whose threads are held.
#[derive(Clone, Copy)]
pub(super) struct HeldRun<'a> {
    /// The words after the program's name, parted by blanks.
    pub(super) words: &'a str,
    pub(super) lines: &'a [&'a str],
    /// A thread that comes to the first point of a pair waits until the second one has come.
    pub(super) holds: &'a [(Point, Point)],
    /// The outputs that are right, each of them texts one behind the other.
    pub(super) outputs: &'a [&'a [&'a str]],
}

const TWO_WORKERS: &str = "serve feed --from 20260105 --slack 0 --workers 2";

pub(super) const FOUR_WORKERS: &str = "serve feed --from 20260105 --slack 0 --workers 4";

const SIXTEEN_WORKERS: &str = "serve feed --from 20260105 --slack 0 --workers 16";

// The query of this client for the earliest arrival at D from A at 08:00:00. Of two and of four
// workers, c1 is the client of the first, c2 of the second, and so on.
macro_rules! asked {
    ($client:literal) => {
        concat!(
            r#"{"v":1,"type":"query","client":""#,
            $client,
            r#"","from":"A","to":"D","date":"20260105","time":"08:00:00"}"#
        )
    };
}

// Just before the query of this line looks.
macro_rules! look {
    ($line:literal) => {
        Point::BeforeLook { line: $line }
    };
}

// While the query of this line looks.
macro_rules! looking {
    ($line:literal) => {
        Point::InLook { line: $line }
    };
}

// Just after the message of this line was posted.
macro_rules! post {
    ($line:literal) => {
        Point::AfterPost { line: $line }
    };
}

// The reply to the query of this line before any message.
macro_rules! scheduled {
    ($line:literal) => {
        concat!(
            r#"{"after":0,"arrives":"09:10:00","line":"#,
            $line,
            r#","rides":[{"alight":{"call":1,"stop":"B1","time":"08:30:00"},"board":{"call":0,"stop":"A","time":"08:00:00"},"date":"20260105","trip":"T1"},{"alight":{"call":1,"stop":"D","time":"09:10:00"},"board":{"call":0,"stop":"B2","time":"08:36:00"},"date":"20260105","trip":"T2"}]}"#,
            "\n"
        )
    };
}

// The reply to the query of this line after the first message, where T2 waits.
macro_rules! held {
    ($line:literal) => {
        concat!(
            r#"{"after":1,"arrives":"09:13:00","line":"#,
            $line,
            r#","rides":[{"alight":{"call":1,"stop":"B1","time":"08:36:00"},"board":{"call":0,"stop":"A","time":"08:00:00"},"date":"20260105","trip":"T1"},{"alight":{"call":1,"stop":"D","time":"09:13:00"},"board":{"call":0,"stop":"B2","time":"08:39:00"},"date":"20260105","trip":"T2"}]}"#,
            "\n"
        )
    };
}

// The reply to the query of this line after the second message, where T2 does not wait.
macro_rules! missed {
    ($line:literal) => {
        concat!(r#"{"after":2,"arrives":null,"line":"#, $line, "}\n")
    };
}

// The reply to the message of this line, of so many accepted ones.
macro_rules! accepted {
    ($count:literal, $line:literal) => {
        concat!(
            r#"{"accepted":"#,
            $count,
            r#","changed":5,"line":"#,
            $line,
            "}\n"
        )
    };
}

/// Two workers and the publisher: the first query waits for the second one, and that one for the
/// message behind both.
pub(super) const BESIDE_ONE_ANOTHER: HeldRun<'static> = HeldRun {
    words: FOUR_WORKERS,
    lines: &[asked!("c1"), asked!("c2"), HELD],
    holds: &[(look!(1), look!(2)), (look!(2), post!(3))],
    outputs: &[
        &[scheduled!(1), held!(2), accepted!(1, 3)],
        &[held!(1), held!(2), accepted!(1, 3)],
    ],
};

/// The same in the second window.
pub(super) const IN_THE_SECOND_WINDOW: HeldRun<'static> = HeldRun {
    words: FOUR_WORKERS,
    lines: &[
        asked!("c1"),
        asked!("c2"),
        FLUSH,
        asked!("c1"),
        asked!("c2"),
        HELD,
    ],
    holds: &[(look!(4), look!(5)), (look!(5), post!(6))],
    outputs: &[
        &[
            scheduled!(1),
            scheduled!(2),
            "{\"flush\":0,\"line\":3}\n",
            scheduled!(4),
            held!(5),
            accepted!(1, 6),
        ],
        &[
            scheduled!(1),
            scheduled!(2),
            "{\"flush\":0,\"line\":3}\n",
            held!(4),
            held!(5),
            accepted!(1, 6),
        ],
    ],
};

/// A worker and the publisher: the query waits for the message behind it, and that one for the
/// query.
pub(super) const BESIDE_THE_PUBLISHER: HeldRun<'static> = HeldRun {
    words: TWO_WORKERS,
    lines: &[asked!("c1"), HELD],
    holds: &[(look!(1), post!(2)), (post!(2), look!(1))],
    outputs: &[&[held!(1), accepted!(1, 2)]],
};

/// The first query waits for the message before it, and that one for the second query.
pub(super) const BETWEEN_TWO_POSTS: HeldRun<'static> = HeldRun {
    words: TWO_WORKERS,
    lines: &[HELD, asked!("c1"), asked!("c1"), MISSED],
    holds: &[(look!(2), post!(1)), (post!(1), look!(3))],
    outputs: &[
        &[accepted!(1, 1), held!(2), held!(3), accepted!(2, 4)],
        &[accepted!(1, 1), held!(2), missed!(3), accepted!(2, 4)],
    ],
};

/// Each query of one client waits for the message before it, and the publisher behind that message
/// until the query looks.
pub(super) const A_LOOK_FOR_EACH_QUERY: HeldRun<'static> = HeldRun {
    words: TWO_WORKERS,
    lines: &[HELD, asked!("c1"), MISSED, asked!("c1"), HELD],
    holds: &[
        (look!(2), post!(1)),
        (post!(1), looking!(2)),
        (look!(4), post!(3)),
        (post!(3), looking!(4)),
    ],
    outputs: &[&[
        accepted!(1, 1),
        held!(2),
        accepted!(2, 3),
        missed!(4),
        accepted!(3, 5),
    ]],
};

/// The queries of two workers wait for one another.
pub(super) const TWO_WORKERS_AT_ONCE: HeldRun<'static> = HeldRun {
    words: TWO_WORKERS,
    lines: &[asked!("c1"), asked!("c2")],
    holds: &[(look!(1), look!(2)), (look!(2), look!(1))],
    outputs: &[&[scheduled!(1), scheduled!(2)]],
};

/// The same while they look.
pub(super) const TWO_LOOKS_AT_ONCE: HeldRun<'static> = HeldRun {
    words: TWO_WORKERS,
    lines: &[asked!("c1"), asked!("c2")],
    holds: &[(looking!(1), looking!(2)), (looking!(2), looking!(1))],
    outputs: &[&[scheduled!(1), scheduled!(2)]],
};

/// Each query of four workers waits for all the others.
pub(super) const FOUR_WORKERS_AT_ONCE: HeldRun<'static> = HeldRun {
    words: FOUR_WORKERS,
    lines: &[asked!("c1"), asked!("c2"), asked!("c3"), asked!("c4")],
    holds: &[
        (look!(1), look!(2)),
        (look!(1), look!(3)),
        (look!(1), look!(4)),
        (look!(2), look!(1)),
        (look!(2), look!(3)),
        (look!(2), look!(4)),
        (look!(3), look!(1)),
        (look!(3), look!(2)),
        (look!(3), look!(4)),
        (look!(4), look!(1)),
        (look!(4), look!(2)),
        (look!(4), look!(3)),
    ],
    outputs: &[&[scheduled!(1), scheduled!(2), scheduled!(3), scheduled!(4)]],
};

/// The queries of twelve clients, of which none waits.
pub(super) const MANY_CLIENTS: HeldRun<'static> = HeldRun {
    words: SIXTEEN_WORKERS,
    lines: &[
        asked!("k0"),
        asked!("k1"),
        asked!("k2"),
        asked!("k3"),
        asked!("k4"),
        asked!("k5"),
        asked!("k6"),
        asked!("k7"),
        asked!("k8"),
        asked!("k9"),
        asked!("k10"),
        asked!("k11"),
    ],
    holds: &[],
    outputs: &[&[
        scheduled!(1),
        scheduled!(2),
        scheduled!(3),
        scheduled!(4),
        scheduled!(5),
        scheduled!(6),
        scheduled!(7),
        scheduled!(8),
        scheduled!(9),
        scheduled!(10),
        scheduled!(11),
        scheduled!(12),
    ]],
};

/// A query, a message and a query once more, where no worker has a viewer: both queries are
/// answered after the message.
pub(super) const WITHOUT_VIEWERS: HeldRun<'static> = HeldRun {
    words: FOUR_WORKERS,
    lines: &[asked!("c1"), HELD, asked!("c1")],
    holds: &[],
    outputs: &[&[held!(1), accepted!(1, 2), held!(3)]],
};

/// Two messages, and between them the queries of four workers, of which the first two have a
/// viewer: their queries are answered between the messages, and the others at the end.
pub(super) const WITH_TWO_VIEWERS: HeldRun<'static> = HeldRun {
    words: FOUR_WORKERS,
    lines: &[
        HELD,
        asked!("c1"),
        asked!("c2"),
        asked!("c3"),
        asked!("c4"),
        MISSED,
    ],
    holds: &[
        (look!(2), post!(1)),
        (look!(3), post!(1)),
        (post!(1), looking!(2)),
        (post!(1), looking!(3)),
    ],
    outputs: &[&[
        accepted!(1, 1),
        held!(2),
        held!(3),
        missed!(4),
        missed!(5),
        accepted!(2, 6),
    ]],
};
