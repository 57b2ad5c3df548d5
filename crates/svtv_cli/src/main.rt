//! The command `svtv`, over the files and the streams of the system.
#![tactic(auto)]

use std::alloc::AllocError;
use std::env;
use std::io::ErrorKind;
use std::process::ExitCode;
use sv_outside::{RealFiles, RealSink};
use svtv::{Status, svtv};

// The words after the program's name, or none where one of them is no text: no command has such a word.
fn words(rt: &HostRuntime) -> Result<Vec<String>, AllocError> {
    let mut words = Vec::new(rt.alloc());
    match env::args(rt) {
        Ok(all) => {
            for word in all.skip(1) {
                words.push(word)?;
            }
            Ok(words)
        }
        Err(error) if error.kind() == ErrorKind::OutOfMemory => Err(AllocError),
        Err(_) => Ok(words),
    }
}

fn run(rt: &HostRuntime) -> Result<Status, AllocError> {
    let words = words(rt)?;
    let mut files = RealFiles::new(rt.clone()?);
    let mut out = RealSink::new(rt.stdout());
    let mut err = RealSink::new(rt.stderr());
    Ok(svtv(rt.alloc(), &words, &mut files, &mut out, &mut err))
}

fn main(rt: HostRuntime) -> ExitCode {
    let status = match run(&rt) {
        Ok(status) => status,
        Err(_) => {
            let _ = eprintln!(rt; "svtv: out of memory");
            Status::Memory
        }
    };
    ExitCode::from(status.code())
}
