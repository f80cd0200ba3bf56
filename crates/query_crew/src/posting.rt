//! What the publisher does with the lines of a window: it posts the messages, and replies to all
//! lines but the queries.

ghost use Rattle.std.specs.Prelude.{◌≡◌, ◌+◌, ◌^◌, ◌<◌, Some, IfOk, OnOk, length};
ghost use mathlib.Core.List.{IsPrefix};
ghost use Rattle.message_reader.specs.Wires.{IsWire};
ghost use Rattle.query_crew.specs.declared.window_line.WindowLine.TheVariants.{Message as Says};
ghost use Rattle.query_crew.specs.Posting.{reply_to_bad, HasService, CanBeRun, IsLineTaken, AreLinesPosted};
ghost use Rattle.query_crew.specs.WindowLines.{IsWindowLine};

use crate::setting::Setting;
use crate::window::NumberedLines;
use crate::window_line::{ClientQuery, WindowLine};
use delay_report::Reply;
use information_service::{TakeMessages, take_wire};
use message_reader::Wire;
use mt_base::memory::OutOfMemory;
use mt_io::{Gate, Point};
use schedule_build::Directory;
use snapshot_board::{Opening, Publisher};
use std::alloc::{AllocError, Global};
use std::sync::Wait;
use timetable::Timetable;
use train_nodes::Msg;

/// A timetable on a board, to which the publisher posts the messages that are accepted.
pub struct OnBoard;

impl<H: Opening<Timetable>, R: Wait> TakeMessages<Publisher<Timetable, H>, R> for OnBoard {
    ghost use Rattle.query_crew.specs.Posting.{IsTimetableAfter, IsPosted};

    ghost holds = { IsTimetableAfter H.opening };

    ghost takes = { IsPosted };

    fn timetable(holder: &Publisher<Timetable, H>) -> &Timetable {
        holder.state()
    }

    fn count(holder: &Publisher<Timetable, H>) -> u64 {
        holder.count()
    }

    fn take(
        holder: &mut Publisher<Timetable, H>,
        rt: &R,
        message: Msg,
    ) -> Result<u64, OutOfMemory> {
        let Ok(()) = holder.post(rt, message) else {
            return Err(AllocError);
        };
        Ok(holder.state().changed().len() as u64)
    }
}

/// The reply to a message that speaks by names. It is posted if it is accepted; then the gate is
/// called.
fn post_wire<H: Opening<Timetable>, R: Wait, G: Gate>(
    setting: &Setting<'_, R, G>,
    publisher: &mut Publisher<Timetable, H>,
    directory: &mut Directory,
    number: u64,
    wire: &Wire,
) -> Result<Reply, OutOfMemory>
    requires board { HasService H.opening publisher.old directory.old }
    requires kept { IsWire wire.now }
    requires room { length publisher.old + 1 < 2 ^ 64 }
    ensures taken { IfOk result (λ reply. IsLineTaken H.opening number (Says wire.now)
        publisher.old publisher.new directory.old directory.new (Some reply)) }
    ensures later { IsPrefix publisher.old publisher.new }
{
    let reply = take_wire::<OnBoard, Publisher<Timetable, H>, R>(
        setting.alloc,
        setting.rt,
        publisher,
        directory,
        number,
        wire,
    )?;
    if let Reply::Accepted { .. } = reply {
        setting.gate.at(Point::AfterPost { line: number });
    }
    Ok(reply)
}

/// The reply to a query whose line is bad. A worker answers any other query.
fn reply_to_bad(number: u64, query: &ClientQuery) -> Option<Reply>
    ensures { result ≡ reply_to_bad number query.now.asked }
{
    match &query.asked {
        Ok(_) => None,
        Err(bad) => Some(Reply::Bad {
            line: number,
            bad: *bad,
        }),
    }
}

/// The reply to a line, unless a worker answers it. Its message is posted if it is accepted.
fn post_line<H: Opening<Timetable>, R: Wait, G: Gate>(
    setting: &Setting<'_, R, G>,
    publisher: &mut Publisher<Timetable, H>,
    directory: &mut Directory,
    number: u64,
    line: &WindowLine,
) -> Result<Option<Reply>, OutOfMemory>
    requires board { HasService H.opening publisher.old directory.old }
    requires kept { IsWindowLine line.now }
    requires room { length publisher.old + 1 < 2 ^ 64 }
    ensures taken { IfOk result (λ reply. IsLineTaken H.opening number line.now publisher.old
        publisher.new directory.old directory.new reply) }
    ensures later { IsPrefix publisher.old publisher.new }
{
    match line {
        WindowLine::Message(wire) => {
            Ok(Some(post_wire(setting, publisher, directory, number, wire)?))
        }
        WindowLine::Query(query) => Ok(reply_to_bad(number, query)),
        WindowLine::Flush => Ok(Some(Reply::Flush {
            line: number,
            count: publisher.count(),
        })),
        WindowLine::Bad(bad) => Ok(Some(Reply::Bad {
            line: number,
            bad: *bad,
        })),
    }
}

/// Goes through the lines of a window in their order: it posts each message that is accepted, and
/// puts a reply behind `replies` for each line, or none where a worker answers the line. Each
/// message is read by the names that are known before it, and the names of extra trains are added.
/// It fails only by memory; then no further line is gone through.
pub(crate) fn post_all<H: Opening<Timetable>, R: Wait, G: Gate>(
    setting: &Setting<'_, R, G>,
    publisher: &mut Publisher<Timetable, H>,
    directory: &mut Directory,
    window: &NumberedLines<'_>,
    replies: &mut Vec<Option<Reply>>,
) -> Result<(), OutOfMemory>
    requires ready { CanBeRun H.opening publisher.old directory.old window.now.first
        window.now.lines.now }

    // what was posted and replied; nothing that was posted is taken back
    ensures posted { OnOk result (AreLinesPosted H.opening window.now.first window.now.lines.now
        publisher.old publisher.new directory.old directory.new replies.old.items
        replies.new.items) }
    ensures later { IsPrefix publisher.old publisher.new }
{
    for (i, line) in window.lines.iter().enumerate() {
        let number = window.first + i as u64 + 1;
        let reply = post_line(setting, publisher, directory, number, line)?;
        replies.push(reply)?;
    }
    Ok(())
}
