// Tables in memory, by folder and name.
ghost use Rattle.std.specs.Prelude.{◌≡◌, ◌<◌, ◌≤◌, ◌∷◌, [], length, map, OnOk, OnErr, IfOk, IfSome, IsErrOf, option_map};
ghost use Rattle.mt_io.specs.Shelves.{shelved};
ghost use Rattle.mt_io.specs.Tables.{IsTooLong, table_in};

use crate::traits::FeedFault;
use mt_base::OutOfMemory;
use std::alloc::Global;
use std::marker::Model;

// A table of more bytes is too long.
pub(crate) const LONGEST: usize = 268_435_456;

#[derive(Drop)]
struct Table {
    folder: String,
    name: String,
    bytes: Vec<u8>,
}

// The table that was put last stands first.
#[derive(Drop)]
pub(crate) struct Shelf {
    alloc: Global,
    tables: Vec<Table>,
}

impl Model for Shelf {
    ghost use Rattle.std.specs.Prelude.{List, map};
    ghost use Rattle.mt_io.specs.Tables.{Shelved};
    ghost use Rattle.mt_io.specs.Shelves.{shelved};

    ghost Value = { List Shelved };

    ghost view = { λ s. map shelved s.tables.items };
}

impl Shelf {
    ghost use Rattle.mt_io.specs.Shelves.{shelved};

    pub(crate) fn build(alloc: Global) -> Shelf
        ensures { result ≡ [] }
    {
        Shelf {
            alloc,
            tables: Vec::new(alloc),
        }
    }

    // Makes `bytes` the table of this folder and name.
    pub(crate) fn add(
        &mut self,
        folder: &str,
        name: &str,
        bytes: Vec<u8>,
    ) -> Result<(), OutOfMemory>
        ensures ok { OnOk result (self.new ≡ (folder.now, name.now, bytes.items) ∷ self.old) }
        ensures err { OnErr result (self.new ≡ self.old) }
    {
        let table = Table {
            folder: String::from_str(self.alloc, folder)?,
            name: String::from_str(self.alloc, name)?,
            bytes,
        };
        put_first(&mut self.tables, table)
    }

    // A copy of a table.
    pub(crate) fn copy_of(&self, folder: &str, name: &str) -> Result<Option<Vec<u8>>, FeedFault>
        ensures bytes { IfOk result (λ table.
            table_in self.now folder.now name.now ≡ option_map (λ v. v.items) table) }
        ensures small { IfOk result (λ table. IfSome table (λ v. length v.items ≤ 268435456)) }
        ensures long { IsErrOf result FeedFault.TooLong
            → IsTooLong (table_in self.now folder.now name.now) }
        ensures never { IsErrOf result FeedFault.Failed → ⊥ }
    {
        let Some(bytes) = find(&self.tables, folder, name) else {
            return Ok(None);
        };
        if bytes.len() > LONGEST {
            return Err(FeedFault::TooLong);
        }
        match Vec::from_slice(self.alloc, bytes) {
            Ok(copy) => Ok(Some(copy)),
            Err(_) => Err(FeedFault::OutOfMemory),
        }
    }
}

// Puts a table before the others.
fn put_first(tables: &mut Vec<Table>, table: Table) -> Result<(), OutOfMemory>
    ensures ok { OnOk result (tables.new.items ≡ table ∷ tables.old.items) }
    ensures err { OnErr result (tables.new.items ≡ tables.old.items) }
{
    tables.insert(0, table)?;
    Ok(())
}

// The bytes of the first table of this folder and name.
fn find<'a>(tables: &'a [Table], folder: &str, name: &str) -> Option<&'a [u8]>
    ensures { option_map (λ s. s.now) result ≡ table_in (map shelved tables.now) folder.now
        name.now }
{
    for table in tables {
        if table.folder.as_str() == folder && table.name.as_str() == name {
            return Some(table.bytes.as_slice());
        }
    }
    None
}
