// The call of the tool for a case.
use crate::case::Case;
use crate::report::Report;
use items::both;
use std::alloc::{AllocError, Global};
use sv_outside::{MemFiles, MemSink, Name};
use svtv::svtv;

fn one(alloc: Global, number: u64) -> Result<Vec<u64>, AllocError> {
    let mut numbers = Vec::new(alloc);
    numbers.push(number)?;
    Ok(numbers)
}

// Adds the files of a case, by name, to a list.
fn put_files(
    alloc: Global,
    case: &Case<'_>,
    list: &mut Vec<(Name, Vec<u8>)>,
) -> Result<(), AllocError> {
    for file in &case.files {
        let name = Name::new(alloc, file.name)?;
        let named = both(name, file.text.to_vec(alloc))?;
        list.push(named)?;
    }
    Ok(())
}

fn files_of(alloc: Global, case: &Case<'_>) -> Result<MemFiles, AllocError> {
    let mut list = Vec::new(alloc);
    let put = put_files(alloc, case, &mut list);
    let (list, _) = both(list, put)?;
    let (list, failing) = both(list, one(alloc, case.read))?;
    Ok(MemFiles::new(list, failing))
}

fn sink(alloc: Global, most: usize, failing: u64) -> Result<MemSink, AllocError> {
    MemSink::new(alloc, most.max(1), one(alloc, failing)?)
}

// Calls the tool over files and a sink, and judges what came.
fn call(
    alloc: Global,
    case: &Case<'_>,
    files: &mut MemFiles,
    output: &mut MemSink,
    errors: &mut MemSink,
    report: &mut Report,
) -> Result<(), AllocError> {
    let status = svtv(alloc, &case.words, files, output, errors);
    report.judge(case, status, output.bytes(), errors.bytes())
}

// Runs a case, where one has begun.
fn run_case(alloc: Global, case: &Case<'_>, report: &mut Report) -> Result<(), AllocError> {
    if case.name.is_empty() {
        return Ok(());
    }
    let files = files_of(alloc, case)?;
    let (files, output) = both(files, sink(alloc, case.most, case.write))?;
    let ((mut files, mut output), mut errors) = both(
        (files, output),
        sink(alloc, case.most, case.message),
    )?;
    call(alloc, case, &mut files, &mut output, &mut errors, report)
}

fn read_cases<'a>(
    alloc: Global,
    text: &'a [u8],
    case: &mut Case<'a>,
    report: &mut Report,
) -> Result<(), AllocError> {
    case.put_words(b"prove d.sv t.csv g.txt")?;
    for line in text.split(|byte| *byte == b'\n') {
        if line.starts_with(b"case ") {
            run_case(alloc, case, report)?;
        }
        case.line(line)?;
    }
    run_case(alloc, case, report)
}

fn run_all(alloc: Global, text: &[u8], report: &mut Report) -> Result<(), AllocError> {
    let mut case = Case::new(alloc);
    read_cases(alloc, text, &mut case, report)
}

/// Runs the cases of a file in their order.
pub fn run_cases(
    alloc: Global,
    file: &str,
    text: &[u8],
    report: &mut Report,
) -> Result<(), AllocError> {
    run_all(alloc, text, report)?;
    report.end_file(file)
}
