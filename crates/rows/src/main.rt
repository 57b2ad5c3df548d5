//! Judges files of cases (test cases), each by the crate of rows that the folder of the file names, and prints what was found.
#![tactic(auto)]

use blast_rows::BlastRows;
use case_rows::{Report, judge_file, named, part};
use cert_rows::CertRows;
use clause_rows::ClauseRows;
use event_rows::EventRows;
use flat_rows::FlatRows;
use graph_rows::GraphRows;
use meaning_rows::MeaningRows;
use std::io::Write;
use std::{env, io};
use vcd_rows::VcdRows;

/// The folder of a file, which says by what it is judged.
#[derive(Clone, Copy)]
enum Folder {
    Blast,
    Cert,
    Clause,
    Event,
    Flat,
    Graph,
    Meaning,
    Vcd,
}

static FOLDERS: [(&[u8], Folder); 8] = [
    (b"blast", Folder::Blast),
    (b"cert", Folder::Cert),
    (b"clause", Folder::Clause),
    (b"event", Folder::Event),
    (b"flat", Folder::Flat),
    (b"graph", Folder::Graph),
    (b"meaning", Folder::Meaning),
    (b"vcd", Folder::Vcd),
];

fn judge(rt: &HostRuntime, name: &str, report: &mut Report) -> io::Result<()> {
    match named(&FOLDERS, part(name.as_bytes(), b'/', 0)) {
        Some(Folder::Blast) => judge_file::<BlastRows>(rt, name, report),
        Some(Folder::Cert) => judge_file::<CertRows>(rt, name, report),
        Some(Folder::Clause) => judge_file::<ClauseRows>(rt, name, report),
        Some(Folder::Event) => judge_file::<EventRows>(rt, name, report),
        Some(Folder::Flat) => judge_file::<FlatRows>(rt, name, report),
        Some(Folder::Graph) => judge_file::<GraphRows>(rt, name, report),
        Some(Folder::Meaning) => judge_file::<MeaningRows>(rt, name, report),
        Some(Folder::Vcd) => judge_file::<VcdRows>(rt, name, report),
        None => Err(io::ErrorKind::NotFound.into()),
    }
}

// Judges the files that the program's words name.
fn judge_all(rt: &HostRuntime, report: &mut Report) -> io::Result<()> {
    for name in env::args(rt)?.skip(1) {
        judge(rt, name.as_str(), report)?;
    }
    Ok(())
}

fn main(rt: HostRuntime) -> io::Result<()> {
    let mut report = Report::new(rt.alloc());
    judge_all(&rt, &mut report)?;
    rt.stdout().write_all(report.out())
}
