//! What becomes of the replies to a window.

ghost use Rattle.std.specs.Prelude.{List};
ghost use Rattle.delay_report.specs.declared.replies.Reply.{Reply as AReply};
ghost use Rattle.schedule_build.specs.Directory.{Names};

use delay_report::Reply;
use information_service::LinesFault;
use schedule_build::Directory;
use std::alloc::Global;

/// How an output receives the replies to a window, all at once.
pub(crate) trait ReceiveReplies<K> {
    ghost use Rattle.std.specs.Prelude.{◌≡◌, List, Some, OnOk, IfErr, IsErrOf};
    ghost use Rattle.delay_report.specs.declared.replies.Reply.{Reply as AReply};
    ghost use Rattle.information_service.specs.Causes.{IsNotOfInput, writes_failed};
    ghost use Rattle.mt_io.specs.Causes.{Faults};
    ghost use Rattle.schedule_build.specs.Directory.{Names};

    /// The output was as the first, received these replies, by these names, and is as the second.
    ghost receives: { K → K → Names → List AReply → Type 0 };

    /// It was as the first, received a part of them, and is as the second. The first of all says
    /// that a write of it has failed; where that holds, it did not receive all of them.
    ghost begins: { Type 0 → K → K → Names → List AReply → Type 0 };

    /// How often a write of it has failed, and when it can.
    ghost faults: { K → Faults };

    /// It is full, if a write of it can fail only then.
    ghost is_full: { K → Type 0 };

    /// Receives the replies to a window. It fails with `WriteFault` where a write of the output
    /// failed, and with `OutOfMemory` where there was no memory.
    fn receive(
        alloc: Global,
        directory: &Directory,
        replies: &[Reply],
        out: &mut K,
    ) -> Result<(), LinesFault>
        ensures ok { OnOk result (receives out.old out.new directory.now replies.now) }
        ensures front { IfErr result (λ f. begins (f ≡ LinesFault.WriteFault) out.old out.new
            directory.now replies.now) }
        ensures fault { IfErr result IsNotOfInput }
        ensures writes { Some (faults out.new) ≡ writes_failed result (faults out.old) }
        ensures full { IsErrOf result LinesFault.WriteFault → is_full out.new };
}
