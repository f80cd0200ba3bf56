//! Who takes the messages of a journal.

use information_service::InformationService;
use message_reader::{Line, Wire};
use mt_base::memory::OutOfMemory;
use std::alloc::Global;

/// Who takes the messages of a journal: a service where it stands, or the publisher of a board with
/// the names that are known. `R` is what it waits with.
pub trait TakeJournal<R> {
    ghost use Rattle.std.specs.Prelude.{◌≡◌, List, IfErr, IfOk};
    ghost use Rattle.delay_model.specs.declared.messages.Message.{Message};
    ghost use Rattle.information_service.specs.ServiceState.{ServiceState};
    ghost use Rattle.message_reader.specs.Wires.{IsWire};
    ghost use Rattle.journal_replay.specs.Taking.{IsReadyFor, IsWireTaken};

    /// It stands as a service in this state, after these messages.
    ghost stands: { Self → ServiceState → List Message → Type 0 };

    /// Takes a message, if it is accepted, and says whether it is. A refused message changes
    /// nothing. `OutOfMemory` where there is no memory; then nothing has changed.
    fn take(&mut self, alloc: Global, rt: &R, wire: Wire) -> Result<bool, OutOfMemory>
        requires wire { IsWire wire }
        requires ready { IsReadyFor stands self.old 1 }
        ensures taken { IfOk result (λ taken. (s : ServiceState) (before : List Message)
            → stands self.old s before → IsWireTaken stands s before wire self.new taken) }
        ensures unchanged { IfErr result (λ _. self.new ≡ self.old) };
}

impl TakeJournal<()> for InformationService {
    ghost use Rattle.journal_replay.specs.Taking.{IsService};

    ghost stands = { IsService };

    fn take(&mut self, alloc: Global, _rt: &(), wire: Wire) -> Result<bool, OutOfMemory> {
        let before = self.count();
        self.answer_said(alloc, 0, &Line::Message(wire))?;
        Ok(self.count() != before)
    }
}
