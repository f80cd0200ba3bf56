//! What is kept for the search for plans.

ghost use Rattle.std.specs.Prelude.{◌≡◌, ◌≤◌, IfOk};
ghost use Rattle.journey_laws.specs.Fronts.{IsFront};

use information_service::InformationService;
use mt_base::journeys::{Plan, Query};
use mt_base::memory::OutOfMemory;
use pareto_scan::{FrontScratch, front};
use std::alloc::Global;
use std::marker::Model;
use timetable::Timetable;

/// Up to how many rides plans are looked for, and room for the search. It is seen as that number.
#[derive(Drop)]
pub struct PlanSearch {
    scratch: FrontScratch,
}

impl Model for PlanSearch {
    ghost use Rattle.std.specs.Prelude.{ℕ};

    ghost Value = { ℕ };

    ghost view = { λ s. s.scratch.rides };
}

impl PlanSearch {
    /// Room for a search over the timetable of a service for plans with up to so many rides: at
    /// most 8. `OutOfMemory` where there is no memory.
    pub fn build(
        alloc: Global,
        rides: u32,
        service: &InformationService,
    ) -> Result<PlanSearch, OutOfMemory>
        requires { rides ≤ 8 }
        ensures { IfOk result (λ search. search ≡ rides) }
    {
        let timetable = service.timetable();
        let stops = timetable.graph().changes().stops();
        let scratch = FrontScratch::build(alloc, rides, stops, timetable.numbers())?;
        Ok(PlanSearch { scratch })
    }

    /// The best plans of a query. `OutOfMemory` where there is no memory.
    pub(crate) fn front(
        &mut self,
        alloc: Global,
        t: &Timetable,
        q: &Query,
    ) -> Result<Vec<Plan>, OutOfMemory>
        ensures front { IfOk result (λ plans. IsFront t.now.network t.now.state q.now self.old
            plans.items) }
        ensures rides { self.new ≡ self.old }
    {
        self.scratch.fit(alloc, t)?;
        let rides = self.scratch.rides();
        front(alloc, t, q, rides, &mut self.scratch)
    }
}
