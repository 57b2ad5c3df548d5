// The files and the streams of the system: the edge that is trusted. Their contracts tell nothing of what they
// hold, so only runs show that they read and write the bytes that the system has (`crates/text_rows`).
ghost use Rattle.std.specs.Prelude.{◌≡◌, ◌≤◌, ◌<◌, ◌^◌, ℕ, length, IfOk};

use crate::{FileErr, Files, MOST_BYTES, Name, Sink, SinkErr};
use std::alloc::Global;
use std::io::{ErrorKind, Read, Write};
use std::{fs, str};

// One byte more than the longest file that is answered.
const MOST_READ: u64 = MOST_BYTES as u64 + 1;

/// The files of the system, by their paths from the working directory. Nothing is told of their contents.
/// A name that is not UTF-8 counts as a failure. At most 16,777,217 bytes of a file are read.
#[derive(Drop)]
pub struct RealFiles<R> {
    rt: R,
    faults: u64,
}

impl<R: std::rt::Files> RealFiles<R> {
    /// The files that the runtime opens. No read has failed yet.
    pub fn new(rt: R) -> RealFiles<R>
        ensures { ⟦<RealFiles<R> as Files>⟧.faults result ≡ 0 }
    {
        RealFiles { rt, faults: 0 }
    }
}

fn read_file<R: std::rt::Files>(rt: &R, alloc: Global, name: &Name) -> Result<Vec<u8>, FileErr>
    ensures { IfOk result (λ bytes. length bytes.items ≤ 2 ^ 24) }
{
    let Ok(path) = str::from_utf8(name.bytes()) else {
        return Err(FileErr::Failed);
    };
    let Ok(file) = fs::open(rt, path) else {
        return Err(FileErr::Failed);
    };
    let mut bytes = Vec::new(alloc);
    match file.take(MOST_READ).read_to_end(&mut bytes) {
        Ok(_) => {}
        Err(e) if e.kind() == ErrorKind::OutOfMemory => return Err(FileErr::Memory),
        Err(_) => return Err(FileErr::Failed),
    }
    if bytes.len() > MOST_BYTES {
        return Err(FileErr::Long);
    }
    Ok(bytes)
}

impl<R: std::rt::Files> Files for RealFiles<R> {
    ghost use Rattle.std.specs.Prelude.{None};

    ghost contents = { λ _ _. None };

    ghost faults = { λ f. f.faults };

    #[tactic(auto, unfolding(crate::specs::Outside::one_more))]
    fn read(&mut self, alloc: Global, name: &Name) -> Result<Vec<u8>, FileErr> {
        let result = read_file(&self.rt, alloc, name);
        if let Err(FileErr::Failed) = result {
            self.faults = self.faults.saturating_add(1);
        }
        result
    }
}

/// A stream of the system, as standard output or standard error. Nothing is told of what was written.
/// A write of no bytes counts as a failure.
#[derive(Drop)]
pub struct RealSink<W> {
    to: W,
    faults: u64,
}

impl<W: Write> RealSink<W> {
    /// The stream. No write has failed yet.
    pub fn new(to: W) -> RealSink<W>
        ensures { ⟦<RealSink<W> as Sink>⟧.faults result ≡ 0 }
    {
        RealSink { to, faults: 0 }
    }
}

impl<W: Write> Sink for RealSink<W> {
    ghost use Rattle.std.specs.Prelude.{None};

    ghost written = { λ _. None };

    ghost faults = { λ s. s.faults };

    #[tactic(auto, unfolding(crate::specs::Outside::one_more))]
    fn write(&mut self, piece: &[u8]) -> Result<usize, SinkErr> {
        match self.to.write(piece) {
            Ok(taken) if taken > 0 => Ok(taken),
            _ => {
                self.faults = self.faults.saturating_add(1);
                Err(SinkErr::Failed)
            }
        }
    }
}
