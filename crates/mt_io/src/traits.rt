//! What bytes and tables come from, and what bytes go to. Each object counts its faults.
ghost use Rattle.std.specs.Prelude.{◌≡◌, ◌<◌, ◌≤◌, List, ℕ, length, IfOk, OnOk, OnErr, Option, Some, IfSome, IsErrOf, option_map};
ghost use Rattle.std.specs.Io.{ReadsAtMost, WritesAtMost};
ghost use Rattle.std.specs.Io.KnownBytes.{Appends, ReadConsumes, WriteAppends};
ghost use Rattle.mt_io.specs.Causes.{Faults, HasCause, IsFull, AppendsPart, counted};
ghost use Rattle.mt_io.specs.Tables.{IsTooLong};

/// The object failed.
#[derive(Clone, Copy, Debug, PartialEq, Eq)]
pub struct Failed;

/// What bytes come from.
pub trait Source {
    /// The bytes that are left, where it tells them.
    ghost left: { Self → Option (List ℕ) };

    /// How often it has failed, and when it can.
    ghost faults: { Self → Faults };

    /// Moves the next bytes into the front of `buf`. None come only at the end, or where `buf` is
    /// empty.
    fn read(&mut self, buf: &mut [u8]) -> Result<usize, Failed>
        ensures bound { ReadsAtMost result buf.new }
        ensures bytes { ReadConsumes (left self.old) (left self.new) result buf.new }
        ensures cause { HasCause (faults self.old) (faults self.new) result };
}

/// What bytes go to.
pub trait Sink {
    /// The bytes that were written, where it tells them.
    ghost written: { Self → Option (List ℕ) };

    /// How often it has failed, and when it can.
    ghost faults: { Self → Faults };

    /// Appends a front of `bytes`, of at least one byte where there is one.
    fn write(&mut self, bytes: &[u8]) -> Result<usize, Failed>
        ensures bound { WritesAtMost result bytes.now }
        ensures bytes { WriteAppends (written self.old) (written self.new) result bytes.now }
        ensures progress { IfOk result (λ n. 0 < length bytes.now → 0 < n) }
        ensures cause { HasCause (faults self.old) (faults self.new) result }
        ensures full { OnErr result (IsFull (faults self.new) (written self.new)) };
}

/// Why a table was not given.
#[derive(Clone, Copy, Debug, PartialEq, Eq)]
pub enum FeedFault {
    /// The object failed.
    Failed,
    /// The table has more than 268,435,456 bytes.
    TooLong,
    /// There was no memory for it.
    OutOfMemory,
}

/// What tables come from, by folder and name.
pub trait Feed {
    /// The bytes of each table that there is, by folder and name, where it tells them.
    ghost tables: { Self → Option (List ℕ → List ℕ → Option (List ℕ)) };

    /// How often it has failed, and when it can.
    ghost faults: { Self → Faults };

    /// The bytes of a table, or None where there is no such table.
    fn table(&mut self, folder: &str, name: &str) -> Result<Option<Vec<u8>>, FeedFault>
        ensures bytes { IfOk result (λ table. IfSome (tables self.old) (λ told.
            told folder.now name.now ≡ option_map (λ v. v.items) table)) }
        ensures small { IfOk result (λ table. IfSome table (λ v. length v.items ≤ 268435456)) }
        ensures long { IsErrOf result FeedFault.TooLong → IfSome (tables self.old) (λ told.
            IsTooLong (told folder.now name.now)) }
        ensures failed { IsErrOf result FeedFault.Failed
            → Some (faults self.new) ≡ counted (faults self.old) }
        ensures answered { ¬ (IsErrOf result FeedFault.Failed)
            → faults self.new ≡ faults self.old }
        ensures same { tables self.new ≡ tables self.old };
}

/// Appends all of `bytes`. `Failed` where the sink failed: then a front of them was appended, and
/// not all.
pub fn put<K: Sink>(sink: &mut K, bytes: &[u8]) -> Result<(), Failed>
    ensures ok { OnOk result (Appends (K.written sink.old) (K.written sink.new) bytes.now) }
    ensures failed { OnErr result (AppendsPart (K.written sink.old)
        (K.written sink.new) bytes.now) }
    ensures cause { HasCause (K.faults sink.old) (K.faults sink.new) result }
    ensures full { OnErr result (IsFull (K.faults sink.new) (K.written sink.new)) }
{
    let mut done = 0;
    while done < bytes.len() {
        done += sink.write(&bytes[done..])?;
    }
    Ok(())
}
