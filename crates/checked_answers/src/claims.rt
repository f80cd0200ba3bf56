//! Claims, and whether what comes with them shows that they are right.

ghost use Rattle.std.specs.Prelude.{◌≡◌, ◌↔◌, ◌≤◌, ◌<◌, IfOk, IsTrue, length};
ghost use Rattle.conn_scan.specs.ScratchState.{IsGoodCertificate};
ghost use Rattle.checked_answers.specs.CheckedClaims.{IsClaimText, IsJudged};

use conn_scan::Scratch;
use delay_report::claim_text;
use information_service::{AskTimetable, InformationService};
use journey_cert::check;
use message_reader::{Claim, resolve_claim};
use mt_base::certificates::Cert;
use mt_base::journeys::Query;
use mt_base::memory::OutOfMemory;
use std::alloc::Global;
use std::marker::Brand;
use std::sync::ledger::{Blank, Ledger};
use timetable::Timetable;
use train_nodes::Steps;

/// An answer to a query that is claimed to be right, by number.
#[derive(Drop)]
pub(crate) struct ClaimedAnswer {
    /// The query.
    pub(crate) query: Query,

    /// The answer, and what is to show that it is right.
    pub(crate) cert: Cert,
}

/// Whether a claimed answer has a good certificate. The steps that it counts are not used.
fn is_good<L: Ledger>(
    timetable: &Timetable,
    scratch: &mut Scratch,
    claimed: &ClaimedAnswer,
    blank: Blank,
) -> bool
    requires stops { length timetable.now.network.stops ≤ scratch.old.room.stops }
    requires numbers { timetable.now.numbers ≤ scratch.old.room.numbers }

    // the blank has the name and the parts of the ledger
    requires name { blank.name ≡ L.name }
    requires parts { blank.parts ≡ L.parts }
    requires some { 0 < blank.parts }

    ensures good { IsTrue result ↔ IsGoodCertificate timetable.now.network timetable.now.state
        claimed.now.query claimed.now.cert }
    ensures room { scratch.new.room ≡ scratch.old.room }
{
    let mut steps = Steps::<L>::open(blank);
    check(
        timetable,
        &claimed.query,
        &claimed.cert,
        scratch,
        &mut steps,
    )
}

/// Checks the certificate of a claimed answer.
pub(crate) struct CheckCertificate;

impl AskTimetable<ClaimedAnswer, bool> for CheckCertificate {
    ghost use Rattle.checked_answers.specs.CheckedClaims.{is_judged};

    ghost answers = { is_judged };

    fn ask(
        _alloc: Global,
        timetable: &Timetable,
        scratch: &mut Scratch,
        question: &ClaimedAnswer,
    ) -> Result<bool, OutOfMemory> {
        timetable.state_is_valid();
        Ok(is_good::<Brand>(timetable, scratch, question, Blank::new(1)))
    }
}

/// Whether what comes with a claim shows that it is right in the timetable as it is now. It does not
/// where the claim names a train that is not known.
fn is_shown_right(
    alloc: Global,
    service: &mut InformationService,
    claim: Claim,
) -> Result<bool, OutOfMemory>
    ensures judged { IfOk result (IsJudged service.old claim) }
    ensures kept { service.new ≡ service.old }
{
    let Some(cert) = resolve_claim(alloc, &claim, service.directory())? else {
        return Ok(false);
    };
    let claimed = ClaimedAnswer {
        query: claim.query,
        cert,
    };
    service.ask::<CheckCertificate, ClaimedAnswer, bool>(alloc, &claimed)
}

/// The text of the reply to a claim.
pub(crate) fn judged_text(
    alloc: Global,
    service: &mut InformationService,
    line: u64,
    claim: Claim,
) -> Result<Vec<u8>, OutOfMemory>
    ensures text { IfOk result (λ text. IsClaimText service.old line claim text.items) }
    ensures kept { service.new ≡ service.old }
{
    let good = is_shown_right(alloc, service, claim)?;
    claim_text(alloc, line, good)
}
