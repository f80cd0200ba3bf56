//! The header of a journal that is written.

ghost use Rattle.std.specs.Prelude.{◌≡◌, IfOk};
ghost use Rattle.mt_base.specs.Civil.{IsCivil};
ghost use Rattle.journal_lines.specs.Lines.{text_of_head};

use journal_lines::{Head, header_line};
use mt_base::memory::OutOfMemory;
use std::alloc::Global;
use std::marker::Model;

/// The line of a header with its end, seen as its bytes.
#[derive(Drop)]
pub struct HeaderText {
    line: Vec<u8>,
}

impl Model for HeaderText {
    ghost use Rattle.std.specs.Prelude.{List, ℕ};

    ghost Value = { List ℕ };

    ghost view = { λ h. h.line.items };
}

impl HeaderText {
    /// The line of this header. `OutOfMemory` where there is no memory.
    pub fn build(alloc: Global, head: &Head) -> Result<HeaderText, OutOfMemory>
        requires { IsCivil head.now.first }
        ensures { IfOk result (λ header. header ≡ text_of_head head.now) }
    {
        Ok(HeaderText {
            line: header_line(alloc, head)?,
        })
    }

    /// The bytes of the line.
    pub fn bytes(&self) -> &[u8]
        ensures { result.now ≡ self.now }
    {
        self.line.as_slice()
    }
}
