//! Which watched journeys have a ride on which train.

ghost use Rattle.std.specs.Prelude.{◌≡◌, ◌≤◌, ◌<◌, ℕ, [], IfOk, OnOk, AllPairs, Contains, length, map};
ghost use Rattle.journey_watch.specs.Renewing.{is_on_any};
ghost use Rattle.journey_watch.specs.Trains.{StandsBesideTrains, journeys_on, journeys_on_any, watched_trains};

use mt_base::certificates::CertRide;
use mt_base::keys::Node;
use mt_base::memory::OutOfMemory;
use mt_base::numbers::TrainNo;
use std::alloc::Global;
use std::marker::Model;

/// The journeys beside each train, by their places among those that are watched. The place of a
/// journey that was not added, for want of memory, may stand there too.
#[derive(Drop)]
pub(crate) struct TrainJourneys {
    rows: Vec<Vec<u32>>,
}

impl Model for TrainJourneys {
    ghost use Rattle.std.specs.Prelude.{ℕ, List, map};

    ghost Value = { List (List ℕ) };

    ghost view = { λ t. map (λ row. row.items) t.rows.items };
}

/// Puts numbers in order, each once.
fn sort_once(numbers: &mut Vec<u32>)
    ensures order { AllPairs (λ a b. a < b) numbers.new.items }
    ensures each { (n : ℕ) → Contains numbers.old.items n → Contains numbers.new.items n }
    ensures only { (n : ℕ) → Contains numbers.new.items n → Contains numbers.old.items n }
{
    numbers.sort_unstable();
    numbers.dedup();
}

/// Whether one of the rides is on one of these trains.
pub(crate) fn is_on_any(trains: &[u32], rides: &[CertRide]) -> bool
    ensures { result ≡ is_on_any trains.now rides.now }
{
    for ride in rides {
        if trains.contains(&ride.train.get()) {
            return true;
        }
    }
    false
}

/// Makes room for so many trains, beside which nothing stands.
fn grow(rows: &mut Vec<Vec<u32>>, alloc: Global, count: usize) -> Result<(), OutOfMemory>
    ensures long { OnOk result (count ≤ length rows.new.items) }
    ensures kept { (train : ℕ) → journeys_on (map (λ row. row.items) rows.new.items) train
        ≡ journeys_on (map (λ row. row.items) rows.old.items) train }
{
    while rows.len() < count {
        rows.push(Vec::new(alloc))?;
    }
    Ok(())
}

impl TrainJourneys {
    /// No journey beside any train.
    pub(crate) fn new(alloc: Global) -> TrainJourneys
        ensures { (train : ℕ) → journeys_on result train ≡ [] }
    {
        TrainJourneys {
            rows: Vec::new(alloc),
        }
    }

    /// The journeys beside a train.
    fn on(&self, train: TrainNo) -> &[u32]
        ensures { result.now ≡ journeys_on self.now train }
    {
        match self.rows.get(train.get() as usize) {
            Some(row) => row,
            None => &[],
        }
    }

    /// Puts a journey beside a train.
    fn note(&mut self, alloc: Global, train: TrainNo, journey: u32) -> Result<(), OutOfMemory>
        ensures added { OnOk result (Contains (journeys_on self.new train) journey) }
        ensures kept { (other n : ℕ) → Contains (journeys_on self.old other) n
            → Contains (journeys_on self.new other) n }
    {
        let place = train.get() as usize;
        grow(&mut self.rows, alloc, place + 1)?;
        self.rows[place].push(journey)?;
        Ok(())
    }

    /// Puts a journey beside each train on which it has a ride.
    pub(crate) fn note_rides(
        &mut self,
        alloc: Global,
        rides: &[CertRide],
        journey: u32,
    ) -> Result<(), OutOfMemory>
        ensures added { OnOk result (StandsBesideTrains self.new journey rides.now) }
        ensures kept { (other n : ℕ) → Contains (journeys_on self.old other) n
            → Contains (journeys_on self.new other) n }
    {
        for ride in rides {
            self.note(alloc, ride.train, journey)?;
        }
        Ok(())
    }

    /// The trains of these events beside which a journey stands.
    fn list_watched(&self, alloc: Global, nodes: &[Node]) -> Result<Vec<u32>, OutOfMemory>
        ensures { IfOk result (λ trains. trains.items ≡ watched_trains self.now nodes.now) }
    {
        let mut trains = Vec::new(alloc);
        for node in nodes {
            if !self.on(node.train).is_empty() {
                trains.push(node.train.get())?;
            }
        }
        Ok(trains)
    }

    /// The journeys beside these trains.
    fn list_journeys(&self, alloc: Global, trains: &[u32]) -> Result<Vec<u32>, OutOfMemory>
        ensures { IfOk result (λ all. all.items ≡ journeys_on_any self.now trains.now) }
    {
        let mut all = Vec::new(alloc);
        for train in trains {
            all.extend_from_slice(self.on(TrainNo::new(*train)))?;
        }
        Ok(all)
    }

    /// The trains of these events beside which a journey stands: by number, each once.
    pub(crate) fn watched(&self, alloc: Global, nodes: &[Node]) -> Result<Vec<u32>, OutOfMemory>
        ensures order { IfOk result (λ trains. AllPairs (λ a b. a < b) trains.items) }
        ensures each { IfOk result (λ trains. (n : ℕ)
            → Contains (watched_trains self.now nodes.now) n → Contains trains.items n) }
        ensures only { IfOk result (λ trains. (n : ℕ) → Contains trains.items n
            → Contains (watched_trains self.now nodes.now) n) }
    {
        let mut trains = self.list_watched(alloc, nodes)?;
        sort_once(&mut trains);
        Ok(trains)
    }

    /// The journeys beside these trains: by their places, each once.
    pub(crate) fn journeys(&self, alloc: Global, trains: &[u32]) -> Result<Vec<u32>, OutOfMemory>
        ensures order { IfOk result (λ all. AllPairs (λ a b. a < b) all.items) }
        ensures each { IfOk result (λ all. (n : ℕ)
            → Contains (journeys_on_any self.now trains.now) n → Contains all.items n) }
    {
        let mut all = self.list_journeys(alloc, trains)?;
        sort_once(&mut all);
        Ok(all)
    }
}
