//! How a command that answers line by line begins.

ghost use Rattle.std.specs.Prelude.{◌≡◌, ◌≤◌, IfErr, IfOk, OnOk, map, string_bytes};
ghost use Rattle.commands.specs.Beginnings.{IsBegun, StopsEarly};
ghost use Rattle.commands.specs.LineTasks.{BeginsSome, line_output, line_task};
ghost use Rattle.commands.specs.Loading.{start_of};
ghost use Rattle.commands.specs.Seen.{feed_seen};

use crate::feed::load_service;
use crate::loading::{Begun, LoadBehind, fetch, load_behind};
use crate::refusal::feed_stop;
use crate::status::Stop;
use command_words::read_words;
use information_service::AnswerLines;
use mt_io::Feed;
use std::alloc::Global;

/// Reads the words of a command that answers line by line, takes the table that is its own from the
/// feed's folder, loads the feed that the words ask for, and then what the command loads behind it.
pub(crate) fn begin<T: AnswerLines<C>, L: LoadBehind<C>, C: Drop, F: Feed>(
    alloc: Global,
    words: &[String],
    feed: &mut F,
) -> Result<Begun<C>, Stop>
    // what it begins with, for which no read failed
    ensures begun { IfOk result (λ b. IsBegun (line_task L.behind T.output)
        (map string_bytes words.now) (F.tables feed.old)
        ((line_output T.output).IsWhole (start_of b))
        ((line_output T.output).AreReplies (start_of b))) }
    ensures begins { IfOk result (λ b. BeginsSome L.behind (start_of b)) }
    ensures count { IfOk result (λ b. b.service.count ≤ 268435456) }
    ensures answered { OnOk result (F.faults feed.new ≡ F.faults feed.old) }

    // or why it does not begin
    ensures stopped { IfErr result (StopsEarly (line_task L.behind T.output)
        (map string_bytes words.now) (feed_seen F.tables F.faults feed.old feed.new)
        (feed.new ≡ feed.old)) }
{
    T::networks_are_written_alike();
    L::networks_are_begun_alike();
    let asked = match read_words(alloc, words) {
        Ok(asked) => asked,
        Err(fault) => return Err(Stop::from(fault)),
    };
    let own = fetch(alloc, feed, asked.folder, L::table())?;
    let mut service = match load_service(alloc, &asked, feed) {
        Ok(service) => service,
        Err(error) => return Err(feed_stop(alloc, error)),
    };
    let kept = load_behind::<L, C>(alloc, &asked, own, &mut service)?;
    Ok(Begun { service, kept })
}
