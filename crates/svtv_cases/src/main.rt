//! Runs cases of the tool over files and sinks in memory, as files of cases tell them, and prints of each file how many are as they should
//! be, and of each other case what came and what should have come.
//!
//! A line of a file of cases is one of these. What a case does not give is as in the case before it in its file.
//!
//!     case NAME           a case begins
//!     words W ..          the words of the command (in the first case: prove d.sv t.csv g.txt)
//!     file NAME           the contents of that file follow
//!     out                 what is printed follows; nothing follows: nothing
//!     err                 the message follows
//!     status WORD         AllProved, Done, NotAll, Usage, Refused, ReadFault, WriteFault or Memory (in the first case: AllProved)
//!     read N, write N     that read, or that write of what is printed, fails; 0: none
//!     message N           that write of the message fails; 0: none
//!     most N              how many bytes a sink takes at once (in the first case: 1000)
//!     gone NAME           that file is not there
//!     | TEXT              a line of what follows
//!     \ TEXT              the same without a line end
//!     repeat N TEXT       so many times that text, without a line end
//!     # TEXT              a remark, as is an empty line
#![tactic(auto)]

mod case;
mod report;
mod run;

use crate::report::Report;
use crate::run::run_cases;
use items::both;
use std::alloc::{AllocError, Global};
use std::env;
use std::process::ExitCode;
use sv_outside::{Files, Name, RealFiles, RealSink, put_all};

// The cases of a file.
fn run_file<F: Files>(
    alloc: Global,
    files: &mut F,
    word: &str,
    report: &mut Report,
) -> Result<(), AllocError> {
    let name = Name::new(alloc, word.as_bytes())?;
    match files.read(alloc, &name) {
        Ok(text) => run_cases(alloc, word, &text, report),
        Err(_) => report.line(word, "could not be read"),
    }
}

fn run_files<F: Files>(
    alloc: Global,
    files: &mut F,
    words: &[String],
    report: &mut Report,
) -> Result<(), AllocError> {
    for word in words {
        run_file(alloc, files, word, report)?;
    }
    Ok(())
}

// The words after the program's name, or none where one of them is no text.
fn put_words(rt: &HostRuntime, words: &mut Vec<String>) -> Result<(), AllocError> {
    if let Ok(all) = env::args(rt) {
        for word in all.skip(1) {
            words.push(word)?;
        }
    }
    Ok(())
}

// Runs the files that the words name.
fn run_words(rt: &HostRuntime, report: &mut Report) -> Result<(), AllocError> {
    let mut words = Vec::new(rt.alloc());
    let put = put_words(rt, &mut words);
    let (words, _) = both(words, put)?;
    let (words, own) = both(words, rt.clone())?;
    let mut files = RealFiles::new(own);
    run_files(rt.alloc(), &mut files, &words, report)
}

fn main(rt: HostRuntime) -> ExitCode {
    let mut report = Report::new(rt.alloc());
    let done = run_words(&rt, &mut report).is_ok();
    let mut out = RealSink::new(rt.stdout());
    let written = put_all(&mut out, report.text()).is_ok();
    ExitCode::from(if done && written { 0 } else { 1 })
}
