//! Claims by name as certificates by number.

ghost use Rattle.std.specs.Prelude.{◌≡◌, IfOk};
ghost use Rattle.message_reader.specs.Claims.{ride_resolved, rides_resolved, claim_resolved};

use crate::claims::{Claim, ClaimRide};
use mt_base::certificates::{Cert, CertRide, Reach};
use mt_base::memory::OutOfMemory;
use mt_base::rows::Rows;
use schedule_build::Directory;
use std::alloc::Global;

/// The ride by number. None where its train is not known.
#[tactic(auto, unfolding(crate::specs::Claims::ride_resolved))]
fn ride(dir: &Directory, ride: &ClaimRide) -> Option<CertRide>
    ensures { result ≡ ride_resolved dir.now ride.now }
{
    let day = dir.day(ride.date)?;
    let train = dir.train(ride.trip.text(), day)?;
    Some(CertRide {
        train,
        board: ride.board,
        alight: ride.alight,
    })
}

/// The rides by number. None where a train of them is not known.
fn rides(
    alloc: Global,
    dir: &Directory,
    named: &[ClaimRide],
) -> Result<Option<Rows<CertRide>>, OutOfMemory>
    ensures { IfOk result (λ found. found ≡ rides_resolved dir.now named.now) }
{
    let mut found = Vec::new(alloc);
    for name in named {
        let Some(ride) = ride(dir, name) else {
            return Ok(None);
        };
        found.push(ride)?;
    }
    Ok(Some(Rows::build(found)))
}

/// A second list of the same reached stops.
fn copied(alloc: Global, reached: &[Reach]) -> Result<Rows<Reach>, OutOfMemory>
    ensures { IfOk result (λ copy. copy ≡ reached.now) }
{
    let mut copy = Vec::new(alloc);
    copy.extend_from_slice(reached)?;
    Ok(Rows::build(copy))
}

/// The certificate that a claim stands for. None exactly where a train of it is not known.
/// `OutOfMemory` where there is no memory.
#[tactic(auto, unfolding(crate::specs::Claims::claim_resolved))]
pub fn resolve_claim(
    alloc: Global,
    claim: &Claim,
    dir: &Directory,
) -> Result<Option<Cert>, OutOfMemory>
    ensures { IfOk result (λ cert. cert ≡ claim_resolved dir.now claim.now) }
{
    let Some(rides) = rides(alloc, dir, claim.rides.as_slice())? else {
        return Ok(None);
    };
    let reached = copied(alloc, claim.reached.as_slice())?;
    Ok(Some(Cert {
        arrives: claim.arrives,
        rides,
        reached,
    }))
}
