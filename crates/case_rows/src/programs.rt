// Files of cases, for a program of rows.
use crate::judging::{Bench, Report, judge_text};
use std::{fs, io};

/// Judges the cases of a file on a bench of its own, and keeps what was found.
pub fn judge_file<B: Bench + Drop>(
    rt: &HostRuntime,
    name: &str,
    report: &mut Report,
) -> io::Result<()> {
    let text = fs::read(rt, name)?;
    let mut bench = B::new(rt.alloc());
    match judge_text(&mut bench, name.as_bytes(), &text, report) {
        Ok(()) => Ok(()),
        Err(_) => Err(io::ErrorKind::OutOfMemory.into()),
    }
}
