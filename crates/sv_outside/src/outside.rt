// What is read and written, with the faults of each counted.
ghost use Rattle.std.specs.Prelude.{◌≡◌, ◌≤◌, ◌<◌, ◌^◌, List, ℕ, Option, Some, length, take, IfOk, OnOk, OnErr, IsErrOf, IfSome};
ghost use Rattle.sv_outside.specs.Outside.{counted, is_failed, one_more, with_text, IsPartWritten};

use crate::Name;
use std::alloc::Global;
use thiserror::Error;

/// The most bytes of a file that are answered.
pub const MOST_BYTES: usize = 1 << 24;

/// Why a file is not answered.
#[derive(Clone, Copy, Debug, Error)]
pub enum FileErr {
    /// It could not be read, which the files count.
    #[error("the file could not be read")]
    Failed,
    /// It has more than 16,777,216 bytes.
    #[error("the file is too long")]
    Long,
    /// Want of memory, which says nothing of the file.
    #[error("out of memory")]
    Memory,
}

/// Why bytes are not written.
#[derive(Clone, Copy, Debug, Error)]
pub enum SinkErr {
    /// The write failed, which the sink counts.
    #[error("the write failed")]
    Failed,
}

/// Files by name. An implementation tells of each name what it holds, or nothing: the clauses on contents hold
/// where they are told. `MemFiles` tells them. `RealFiles` tells nothing, so that what it reads is trusted.
pub trait Files {
    /// The contents by name, where they are told.
    ghost contents: { Self → List ℕ → Option (List ℕ) };

    /// How often a read has failed: up to 2^64 - 1, where the count stands still.
    ghost faults: { Self → ℕ };

    /// The whole contents, of at most 16,777,216 bytes. No call changes them.
    fn read(&mut self, alloc: Global, name: &Name) -> Result<Vec<u8>, FileErr>
        ensures whole { IfOk result (λ bytes. IfSome (contents self.old name.now) (λ told. bytes.items ≡ told)) }
        ensures limit { IfOk result (λ bytes. length bytes.items ≤ 2 ^ 24) }
        ensures long { IsErrOf result FileErr.Long → IfSome (contents self.old name.now) (λ told. 2 ^ 24 < length told) }
        ensures unchanged { (other : List ℕ) → contents self.new other ≡ contents self.old other }
        ensures counted { faults self.new ≡ counted (is_failed result) (faults self.old) }
        ensures counts_up { faults self.old ≤ faults self.new };
}

/// Where bytes are written. An implementation tells the bytes written so far, or nothing: the clauses on them hold
/// where they are told. `MemSink` tells them. `RealSink` tells nothing, so that what it writes is trusted.
pub trait Sink {
    /// The bytes written, where they are told.
    ghost written: { Self → Option (List ℕ) };

    /// How often a write has failed: up to 2^64 - 1, where the count stands still.
    ghost faults: { Self → ℕ };

    /// Writes at least one of the first bytes of the piece at the end, and says how many. It takes no memory.
    fn write(&mut self, piece: &[u8]) -> Result<usize, SinkErr>
        requires { 0 < length piece.now }
        ensures count { IfOk result (λ n. (0 < n) × (n ≤ length piece.now)) }
        ensures appended { IfOk result (λ n. written self.new ≡ with_text (written self.old) (take n piece.now)) }
        ensures failed { OnErr result (faults self.new ≡ one_more (faults self.old)) }
        ensures kept { OnOk result (faults self.new ≡ faults self.old) }
        ensures nothing { OnErr result (written self.new ≡ written self.old) }
        ensures counts_up { faults self.old ≤ faults self.new };
}

/// Writes the whole text at the end, or ends at the first write that fails, after a front of the text, which may be
/// empty. It takes no memory.
pub fn put_all<K: Sink>(sink: &mut K, text: &[u8]) -> Result<(), SinkErr>
    ensures whole { OnOk result (K.written sink.new ≡ with_text (K.written sink.old) text.now) }
    ensures failed { OnErr result (K.faults sink.new ≡ one_more (K.faults sink.old)) }
    ensures kept { OnOk result (K.faults sink.new ≡ K.faults sink.old) }
    ensures part { OnErr result (IsPartWritten (K.written sink.old) (K.written sink.new) text.now) }
    ensures counts_up { K.faults sink.old ≤ K.faults sink.new }
{
    let mut rest = text;
    while !rest.is_empty() {
        let taken = sink.write(rest)?;
        let (_, after) = rest.split_at(taken);
        rest = after;
    }
    Ok(())
}
