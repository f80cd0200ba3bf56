//! Whether a certificate is good.

ghost use Rattle.std.specs.Prelude.{◌≡◌, ◌↔◌, ◌≤◌, IsTrue, length};
ghost use Rattle.journey_laws.specs.Certificates.{IsGoodCertificate};

use crate::journey::has_journey;
use crate::stops::are_good_stops;
use conn_scan::{Scratch, has_arrivals};
use mt_base::certificates::Cert;
use mt_base::journeys::Query;
use std::sync::ledger::Ledger;
use timetable::Timetable;
use train_nodes::Steps;

/// Whether a certificate is good: then its rides are an earliest journey, or there is none. It may
/// have any numbers, also of trains, calls and stops that do not exist. It takes no memory, and
/// nothing is promised of what the scratch shows afterwards. Each stored time that it reads is a
/// step; no clause bounds them.
pub fn check<L: Ledger>(
    t: &Timetable,
    q: &Query,
    c: &Cert,
    scratch: &mut Scratch,
    steps: &mut Steps<L>,
) -> bool
    requires stops { length t.now.network.stops ≤ scratch.old.room.stops }
    requires numbers { t.now.numbers ≤ scratch.old.room.numbers }
    ensures good { IsTrue result ↔ IsGoodCertificate t.now.network t.now.state q.now c.now }
    ensures room { scratch.new.room ≡ scratch.old.room }
{
    t.state_is_valid();
    let reached = c.reached.as_slice();
    if !are_good_stops(t, q, &c.arrives, reached) {
        return false;
    }
    if !has_journey(t, q, c, steps) {
        return false;
    }
    has_arrivals(t, q, &c.arrives, reached, scratch)
}
