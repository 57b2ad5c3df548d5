// Files and a sink in memory, some of whose calls fail. Contracts speak of what files and sinks tell, and real ones tell
// nothing, so it is through these that clauses on contents say something. Which calls fail is given by their numbers, from 1. A
// read copies the contents and may want memory; the sink takes its room at once, so that no write does.
ghost use Rattle.std.specs.Prelude.{◌≡◌, ◌≤◌, ◌<◌, ◌^◌, [], ℕ, List, Some, None, Ok, Err, if◌then◌else◌, ◌==◌, length, take, map, option_map, IfOk, IfErr, IfSome, OnOk, OnErr, IsErrOf};
ghost use Rattle.std.specs.Result.{result_ok};
ghost use Rattle.std.specs.List.{list_any};
ghost use Rattle.sv_outside.specs.Memory.{MemoryFiles, MemorySink, contents_under, contents_of, within_limit, read_of, IsErrorOf, after_read, share_of, takes, after_write};
ghost use Rattle.sv_outside.specs.Outside.{counted, is_failed, one_more, with_text};

use crate::{FileErr, Files, MOST_BYTES, Name, Sink, SinkErr};
use std::alloc::{AllocError, Global};
use std::marker::Model;

/// Files in memory. The calls with the numbers of a list fail, and a name that is not there is a fault.
/// Calls count from 1.
#[derive(Drop)]
pub struct MemFiles {
    list: Vec<(Name, Vec<u8>)>,
    failing: Vec<u64>,
    calls: u64,
    faults: u64,
}

impl Model for MemFiles {
    ghost Value = { MemoryFiles };

    ghost view = { λ a. record { list = map (λ file. (file.0, file.1.items)) a.list.items; failing = a.failing.items; calls = a.calls; faults = a.faults } };
}

impl MemFiles {
    /// Files with these names and contents, the first of each name counting. Nothing was read yet.
    #[tactic(auto, using(crate::proofs::Contents::contents_mapped))]
    pub fn new(list: Vec<(Name, Vec<u8>)>, failing: Vec<u64>) -> MemFiles
        ensures files { result ≡ record { list = map (λ file. (file.0, file.1.items)) list.items; failing = failing.items; calls = 0; faults = 0 } }
        ensures contents { (name : List ℕ) → ⟦<MemFiles as Files>⟧.contents result name ≡ contents_under list.items (λ v. v.items) name }
        ensures no_faults { ⟦<MemFiles as Files>⟧.faults result ≡ 0 }
    {
        MemFiles {
            list,
            failing,
            calls: 0,
            faults: 0,
        }
    }
}

fn find<'a>(list: &'a [(Name, Vec<u8>)], name: &Name) -> Option<&'a Vec<u8>>
    ensures { option_map (λ v. v.now.items) result ≡ contents_under list.now (λ v. v.items) name.now }
{
    for (own, contents) in list {
        if own.bytes() == name.bytes() {
            return Some(contents);
        }
    }
    None
}

fn copy_of(alloc: Global, contents: Option<&Vec<u8>>) -> Result<Vec<u8>, FileErr>
    ensures answered { IfOk result (λ bytes. within_limit (option_map (λ v. v.now.items) contents.entry) ≡ Ok bytes.items) }
    ensures refused { IfErr result (λ e. IsErrorOf e (within_limit (option_map (λ v. v.now.items) contents.entry))) }
{
    match contents {
        None => Err(FileErr::Failed),
        Some(bytes) if bytes.len() > MOST_BYTES => Err(FileErr::Long),
        Some(bytes) => match bytes.to_vec(alloc) {
            Ok(copy) => Ok(copy),
            Err(_) => Err(FileErr::Memory),
        },
    }
}

// What a read gives, of a call that is to fail or not.
fn answer_of(
    alloc: Global,
    list: &[(Name, Vec<u8>)],
    is_to_fail: bool,
    name: &Name,
) -> Result<Vec<u8>, FileErr>
    ensures answered { IfOk result (λ bytes. (if is_to_fail then Err FileErr.Failed else within_limit (contents_under list.now (λ v. v.items) name.now)) ≡ Ok bytes.items) }
    ensures refused { IfErr result (λ e. IsErrorOf e (if is_to_fail then Err FileErr.Failed else within_limit (contents_under list.now (λ v. v.items) name.now))) }
{
    if is_to_fail {
        return Err(FileErr::Failed);
    }
    copy_of(alloc, find(list, name))
}

#[tactic(auto, unfolding(crate::specs::Outside::one_more))]
fn faults_then(answer: &Result<Vec<u8>, FileErr>, faults: u64) -> u64
    ensures { result ≡ counted (is_failed answer.now) faults }
{
    match answer {
        Err(FileErr::Failed) => faults.saturating_add(1),
        _ => faults,
    }
}

// Whether the call with that number is to fail.
fn is_among(failing: &[u64], number: u64) -> bool
    ensures { result ≡ list_any (λ n. n == number) failing.now }
{
    failing.iter().any(|n| *n == number)
}

impl Files for MemFiles {
    ghost contents = { contents_of };

    ghost faults = { λ m. m.faults };

    /// The contents, unless the call is to fail. Want of memory is the one other answer.
    #[tactic(auto, using(crate::proofs::Contents::contents_mapped, crate::proofs::Contents::faults_alike), unfolding(crate::specs::Outside::one_more))]
    fn read(&mut self, alloc: Global, name: &Name) -> Result<Vec<u8>, FileErr>
        ensures answered { IfOk result (λ bytes. read_of self.old name.now ≡ Ok bytes.items) }
        ensures refused { IfErr result (λ e. IsErrorOf e (read_of self.old name.now)) }
        ensures after { self.new ≡ after_read self.old name.now }

        // What holds of all files.
        ensures whole { IfOk result (λ bytes. IfSome (⟦<MemFiles as Files>⟧.contents self.old name.now) (λ told. bytes.items ≡ told)) }
        ensures limit { IfOk result (λ bytes. length bytes.items ≤ 2 ^ 24) }
        ensures long { IsErrOf result FileErr.Long → IfSome (⟦<MemFiles as Files>⟧.contents self.old name.now) (λ told. 2 ^ 24 < length told) }
        ensures unchanged { (other : List ℕ) → ⟦<MemFiles as Files>⟧.contents self.new other ≡ ⟦<MemFiles as Files>⟧.contents self.old other }
        ensures counted { ⟦<MemFiles as Files>⟧.faults self.new ≡ counted (is_failed result) (⟦<MemFiles as Files>⟧.faults self.old) }
        ensures counts_up { ⟦<MemFiles as Files>⟧.faults self.old ≤ ⟦<MemFiles as Files>⟧.faults self.new }
    {
        self.calls = self.calls.saturating_add(1);
        let is_to_fail = is_among(&self.failing, self.calls);
        let answer = answer_of(alloc, &self.list, is_to_fail, name);
        self.faults = faults_then(&answer, self.faults);
        answer
    }
}

/// A sink in memory with room for 16 MiB, which takes at most so many bytes in a call. The calls with
/// the numbers of a list fail, counted from 1, and so does a call without room for what it is to take.
#[derive(Drop)]
pub struct MemSink {
    bytes: Vec<u8>,
    most: usize,
    failing: Vec<u64>,
    calls: u64,
    faults: u64,
}

impl Model for MemSink {
    ghost use Rattle.std.specs.Prelude.{◌≤◌, ◌^◌, length, vec_capacity};
    ghost use Rattle.sv_outside.specs.Memory.{MemorySink};

    ghost Value = { MemorySink };

    ghost view = { λ a. record { bytes = a.bytes.items; most = a.most; failing = a.failing.items; calls = a.calls; faults = a.faults } };

    ghost invariant = { λ a. (1 ≤ a.most) × (length a.bytes.items ≤ 2 ^ 24) × (2 ^ 24 ≤ vec_capacity a.bytes) };
}

impl MemSink {
    /// An empty sink. It takes its room at once, so that no write takes memory.
    pub fn new(alloc: Global, most: usize, failing: Vec<u64>) -> Result<MemSink, AllocError>
        requires { 1 ≤ most }
        ensures sink { IfOk result (λ sink. sink ≡ record { bytes = []; most = most; failing = failing.items; calls = 0; faults = 0 }) }
        ensures nothing { IfOk result (λ sink. ⟦<MemSink as Sink>⟧.written sink ≡ Some []) }
        ensures no_faults { IfOk result (λ sink. ⟦<MemSink as Sink>⟧.faults sink ≡ 0) }
    {
        Ok(MemSink {
            bytes: Vec::with_capacity(alloc, MOST_BYTES)?,
            most,
            failing,
            calls: 0,
            faults: 0,
        })
    }

    /// What was written.
    pub fn bytes(&self) -> &[u8]
        ensures { ⟦<MemSink as Sink>⟧.written self.now ≡ Some result.now }
    {
        &self.bytes
    }
}

impl Sink for MemSink {
    ghost written = { λ s. Some s.bytes };

    ghost faults = { λ s. s.faults };

    /// Takes its share of the piece, unless the call is to fail or lacks room. It takes no memory.
    #[tactic(auto, unfolding(crate::specs::Outside::one_more))]
    fn write(&mut self, piece: &[u8]) -> Result<usize, SinkErr>
        requires { 0 < length piece.now }
        ensures answered { result_ok result ≡ (if takes self.old piece.now then Some (share_of self.old piece.now) else None) }
        ensures after { self.new ≡ after_write self.old piece.now }

        // What holds of all sinks.
        ensures count { IfOk result (λ n. (0 < n) × (n ≤ length piece.now)) }
        ensures appended { IfOk result (λ n. ⟦<MemSink as Sink>⟧.written self.new ≡ with_text (⟦<MemSink as Sink>⟧.written self.old) (take n piece.now)) }
        ensures failed { OnErr result (⟦<MemSink as Sink>⟧.faults self.new ≡ one_more (⟦<MemSink as Sink>⟧.faults self.old)) }
        ensures kept { OnOk result (⟦<MemSink as Sink>⟧.faults self.new ≡ ⟦<MemSink as Sink>⟧.faults self.old) }
        ensures nothing { OnErr result (⟦<MemSink as Sink>⟧.written self.new ≡ ⟦<MemSink as Sink>⟧.written self.old) }
        ensures counts_up { ⟦<MemSink as Sink>⟧.faults self.old ≤ ⟦<MemSink as Sink>⟧.faults self.new }
    {
        self.calls = self.calls.saturating_add(1);
        let taken = piece.len().min(self.most);
        let is_to_fail = is_among(&self.failing, self.calls);
        if is_to_fail || MOST_BYTES - self.bytes.len() < taken {
            self.faults = self.faults.saturating_add(1);
            return Err(SinkErr::Failed);
        }
        let _ = self.bytes.extend_from_slice(&piece[..taken]);
        Ok(taken)
    }
}
