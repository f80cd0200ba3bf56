//! Names of stops, trips, routes and services.

ghost use Rattle.std.specs.Prelude.{◌≡◌, List, ℕ, IfOk, string_bytes};

use crate::memory::OutOfMemory;
use std::alloc::Global;
use std::marker::Model;

/// A name, seen as its bytes in UTF-8.
#[derive(Drop)]
pub struct Name {
    text: String,
}

impl Model for Name {
    ghost Value = { List ℕ };

    ghost view = { λ n. string_bytes n.text };
}

impl Name {
    /// The name with this text. `OutOfMemory` where there is no memory.
    pub fn build(alloc: Global, t: &str) -> Result<Name, OutOfMemory>
        ensures { IfOk result (λ n. n ≡ t.now) }
    {
        Ok(Name {
            text: String::from_str(alloc, t)?,
        })
    }

    /// Its text.
    pub fn text(&self) -> &str
        ensures { result.now ≡ self.now }
    {
        self.text.as_str()
    }

    /// A second name with the same text. `OutOfMemory` where there is no memory.
    pub fn copy(&self, alloc: Global) -> Result<Name, OutOfMemory>
        ensures { IfOk result (λ n. n ≡ self.now) }
    {
        Name::build(alloc, self.text())
    }
}
