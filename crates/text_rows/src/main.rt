//! Runs files of test cases of what stands below the trees: tokens, directives, expressions, whole texts, literals, names, files
//! and sinks. It prints of each file how many of its cases are as they should be, or of each case that differs what came and what
//! should have come. `cases.rt` says how a case is written, `acts.rt` what its keys do. What is expected was found by hand.
#![tactic(auto)]

mod acts;
mod cases;
mod directives;
mod edges;
mod printed;
mod report;
mod shown;
mod texts;
mod trees;

use items::both;
use report::Report;
use std::alloc::AllocError;
use std::env;
use std::io::ErrorKind;
use std::process::ExitCode;
use sv_outside::{RealFiles, RealSink, put_all};

// The words after the program's name.
fn words(rt: &HostRuntime) -> Result<Vec<String>, AllocError> {
    let mut words = Vec::new(rt.alloc());
    match env::args(rt) {
        Ok(all) => {
            for word in all.skip(1) {
                words.push(word)?;
            }
            Ok(words)
        }
        Err(error) if error.kind() == ErrorKind::OutOfMemory => Err(AllocError),
        Err(_) => Ok(words),
    }
}

// Runs the files that the words name.
fn run_words(rt: &HostRuntime, report: &mut Report) -> Result<(), AllocError> {
    let words = words(rt)?;
    let (words, own) = both(words, rt.clone())?;
    let mut files = RealFiles::new(own);
    report.run_files(rt.alloc(), &words, &mut files)
}

fn main(rt: HostRuntime) -> ExitCode {
    let mut report = Report::new(rt.alloc());
    let done = run_words(&rt, &mut report).is_ok();
    let mut out = RealSink::new(rt.stdout());
    let printed = done && put_all(&mut out, report.bytes()).is_ok();
    ExitCode::from(if printed { 0 } else { 1 })
}
