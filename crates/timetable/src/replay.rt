//! A timetable as a value that takes messages one after another, as the copies of a board do.

ghost use Rattle.std.specs.Prelude.{◌≡◌, ◌<◌, None};
ghost use Rattle.delay_model.specs.Refusals.{refusal};
ghost use Rattle.timetable.specs.TimetableState.{taken};

use crate::timetable::Timetable;
use snapshot_board::Replay;
use std::marker::Brand;
use std::sync::ledger::{Blank, Ledger};
use train_nodes::{Msg, Steps};

/// Takes a message that is accepted. The steps that it counts are not used.
fn take<L: Ledger>(timetable: &mut Timetable, m: &Msg, blank: Blank)
    requires name { blank.name ≡ L.name }
    requires parts { blank.parts ≡ L.parts }
    requires some { 0 < blank.parts }
    requires accepted { refusal timetable.old.network timetable.old.state m.now ≡ None }
    ensures { timetable.new ≡ taken timetable.old m.now }
{
    let mut steps = Steps::<L>::open(blank);
    let _ = timetable.take(m, &mut steps);
}

/// Takes a message as another timetable took it. The steps that it counts are not used.
fn follow<L: Ledger>(timetable: &mut Timetable, m: &Msg, other: &Timetable, blank: Blank)
    requires name { blank.name ≡ L.name }
    requires parts { blank.parts ≡ L.parts }
    requires some { 0 < blank.parts }
    requires taken { other.now ≡ taken timetable.old m.now }
    ensures { timetable.new ≡ taken timetable.old m.now }
{
    let mut steps = Steps::<L>::open(blank);
    timetable.follow(m, other, &mut steps);
}

impl Replay for Timetable {
    type Msg = Msg;

    type State = Timetable;

    ghost meaning = { λ t. t };

    ghost after = { taken };

    ghost fits = { λ t m. refusal t.network t.state m ≡ None };

    fn step(&mut self, m: &Msg) {
        take::<Brand>(self, m, Blank::new(1))
    }

    fn follow(&mut self, m: &Msg, other: &Timetable) {
        follow::<Brand>(self, m, other, Blank::new(1))
    }
}
