//! Messages, and what is told of watched journeys behind them.

ghost use Rattle.std.specs.Prelude.{◌≡◌, ◌+◌, ◌++◌, ◌<◌, ◌≤◌, ◌-◌, ◌^◌, Ok, IfOk, OnOk};
ghost use Rattle.message_reader.specs.declared.wire.Line.TheVariants.{Message as Says};
ghost use Rattle.message_reader.specs.Wires.{IsWire};
ghost use Rattle.information_service.specs.Following.{HasJustTaken};
ghost use Rattle.information_service.specs.ServiceState.{after_said};
ghost use Rattle.watch_answers.specs.WatchedMessages.{IsMessageText, are_kept, are_told, texts_of_alerts};

use delay_report::{alert_text, reply_text};
use information_service::{FollowMessages, InformationService};
use journey_watch::Watch;
use message_reader::Wire;
use mt_base::memory::OutOfMemory;
use mt_base::rows::Rows;
use schedule_build::Directory;
use standing_laws::Alert;
use std::alloc::Global;
use std::marker::Brand;
use std::sync::ledger::{Blank, Ledger};
use timetable::Timetable;
use train_nodes::Steps;

/// Tells what a message changes for watched journeys.
struct TellAlerts;

/// What is told behind a message that the timetable has just taken. The steps that it counts are
/// not used.
fn tell_alerts<L: Ledger>(
    alloc: Global,
    timetable: &Timetable,
    kept: &mut Watch,
    blank: Blank,
) -> Result<Rows<Alert>, OutOfMemory>
    requires taken { HasJustTaken are_kept timetable.now kept.old }

    // the blank has the name and the parts of the ledger
    requires name { blank.name ≡ L.name }
    requires parts { blank.parts ≡ L.parts }
    requires some { 0 < blank.parts }

    ensures { IfOk result (λ alerts. are_told timetable.now.network timetable.now.state kept.old
        alerts kept.new) }
{
    timetable.state_is_valid();
    let mut steps = Steps::<L>::open(blank);
    kept.after(alloc, timetable, &mut steps)
}

impl FollowMessages<Watch, Rows<Alert>> for TellAlerts {
    ghost use Rattle.watch_answers.specs.WatchedMessages.{are_kept, are_told};

    ghost ready = { are_kept };

    ghost follows = { are_told };

    fn follow(
        alloc: Global,
        timetable: &Timetable,
        kept: &mut Watch,
    ) -> Result<Rows<Alert>, OutOfMemory> {
        tell_alerts::<Brand>(alloc, timetable, kept, Blank::new(1))
    }
}

/// Appends the lines of alerts behind the reply to the message in a line.
fn push_alerts(
    alloc: Global,
    text: &mut Vec<u8>,
    line: u64,
    alerts: &[Alert],
    directory: &Directory,
) -> Result<(), OutOfMemory>
    ensures { OnOk result (text.new.items
        ≡ text.old.items ++ texts_of_alerts directory.now line alerts.now) }
{
    for alert in alerts {
        let told = alert_text(alloc, alert, line, directory)?;
        text.extend_from_slice(told.as_slice())?;
    }
    Ok(())
}

/// The text of the reply to a message, which is taken if it is accepted, with what is told behind
/// it.
pub(crate) fn message_text(
    alloc: Global,
    service: &mut InformationService,
    kept: &mut Watch,
    line: u64,
    wire: &Wire,
) -> Result<Vec<u8>, OutOfMemory>
    requires wire { IsWire wire.now }
    requires count { service.old.count < 2 ^ 64 - 1 }
    requires fits { are_kept service.old.network service.old.state kept.old }
    ensures text { IfOk result (λ text. IsMessageText service.old kept.old line wire.now text.items
        service.new kept.new) }
    ensures next { OnOk result (service.new ≡ after_said service.old (Ok (Says wire.now))) }
    ensures fits { OnOk result (are_kept service.new.network service.new.state kept.new) }
    ensures counts { service.new.count ≤ service.old.count + 1 }
{
    let followed = service.take_followed::<TellAlerts, Watch, Rows<Alert>>(
        alloc, line, wire, kept,
    )?;
    let mut text = reply_text(alloc, &followed.reply, service.directory())?;
    if let Some(alerts) = &followed.told {
        push_alerts(
            alloc,
            &mut text,
            line,
            alerts.as_slice(),
            service.directory(),
        )?;
    }
    Ok(text)
}
