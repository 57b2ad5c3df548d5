// What is printed of files and sinks: the reads and writes of a case, in memory and on a stream, with those that fail. Each
// call is printed in a line of its own, so that a case shows the order of answers too. Long contents are printed by their
// length alone, which keeps cases with large files short.
use crate::cases::{Case, File, parts};
use crate::printed::Printed;
use items::both;
use std::alloc::{AllocError, Global};
use sv_outside::{FileErr, Files, MemFiles, MemSink, Name, RealSink, Sink, put_all};

fn push_file(list: &mut Vec<(Name, Vec<u8>)>, file: &File) -> Result<(), AllocError> {
    let text = file.text.to_vec(*file.text.allocator())?;
    let (text, name) = both(text, file.name.copy())?;
    list.push((name, text))?;
    Ok(())
}

fn list_of(files: &[File], list: &mut Vec<(Name, Vec<u8>)>) -> Result<(), AllocError> {
    for file in files {
        push_file(list, file)?;
    }
    Ok(())
}

/// The files of the case, whose reads fail as it says.
pub fn files_of(case: &Case) -> Result<MemFiles, AllocError> {
    let failing = case.failing_reads.to_vec(case.alloc)?;
    let mut list = Vec::new(case.alloc);
    let listed = list_of(&case.files, &mut list);
    let ((failing, list), _) = both((failing, list), listed)?;
    Ok(MemFiles::new(list, failing))
}

// How long contents are, and short ones themselves.
fn print_contents(contents: &[u8], out: &mut Printed) -> Result<(), AllocError> {
    out.number(contents.len())?;
    out.text(b" bytes")?;
    if contents.is_empty() || contents.len() > 64 {
        return Ok(());
    }
    out.text(b": ")?;
    out.text(contents)
}

fn print_read(read: &Result<Vec<u8>, FileErr>, out: &mut Printed) -> Result<(), AllocError> {
    match read {
        Ok(contents) => print_contents(contents, out),
        Err(FileErr::Failed) => out.text(b"failed"),
        Err(FileErr::Long) => out.text(b"long"),
        Err(FileErr::Memory) => out.text(b"out of memory"),
    }
}

fn print_read_of<F: Files>(
    alloc: Global,
    name: &[u8],
    files: &mut F,
    out: &mut Printed,
) -> Result<(), AllocError> {
    let name = Name::new(alloc, name)?;
    let read = files.read(alloc, &name);
    print_read(&read, out)
}

fn print_all_reads<F: Files>(
    alloc: Global,
    names: &[&[u8]],
    files: &mut F,
    out: &mut Printed,
) -> Result<(), AllocError> {
    for name in names {
        print_read_of(alloc, name, files, out)?;
        out.text(b"\n")?;
    }
    Ok(())
}

/// What the reads of these names give, each in a line.
pub fn print_reads<F: Files>(
    alloc: Global,
    names: &[u8],
    files: &mut F,
    out: &mut Printed,
) -> Result<(), AllocError> {
    let names = parts(alloc, names, b' ')?;
    print_all_reads(alloc, &names, files, out)
}

/// What the reads of the case's files give.
pub fn print_own_reads(case: &Case, out: &mut Printed) -> Result<(), AllocError> {
    let mut files = files_of(case)?;
    print_reads(case.alloc, &case.words, &mut files, out)
}

// One write of what is no empty text: how many bytes it took.
fn print_write<K: Sink>(text: &[u8], sink: &mut K, out: &mut Printed) -> Result<(), AllocError> {
    if text.is_empty() {
        return Ok(());
    }
    match sink.write(text) {
        Ok(taken) => out.number(taken),
        Err(_) => out.text(b"failed"),
    }
}

fn print_put<K: Sink>(text: &[u8], sink: &mut K, out: &mut Printed) -> Result<(), AllocError> {
    match put_all(sink, text) {
        Ok(_) => out.text(b"all"),
        Err(_) => out.text(b"failed"),
    }
}

// What comes of writing each of the files, each in a line: in one write, or whole.
fn print_writes<K: Sink>(
    files: &[File],
    is_put: bool,
    sink: &mut K,
    out: &mut Printed,
) -> Result<(), AllocError> {
    for file in files {
        if is_put {
            print_put(&file.text, sink, out)?;
        } else {
            print_write(&file.text, sink, out)?;
        }
        out.text(b"\n")?;
    }
    Ok(())
}

fn print_sink_of(
    files: &[File],
    is_put: bool,
    sink: &mut MemSink,
    out: &mut Printed,
) -> Result<(), AllocError> {
    print_writes(files, is_put, sink, out)?;
    print_contents(sink.bytes(), out)
}

/// What comes of writing the files to a sink in memory, and what it holds then.
pub fn print_sink(case: &Case, is_put: bool, out: &mut Printed) -> Result<(), AllocError> {
    let failing = case.failing_writes.to_vec(case.alloc)?;
    let mut sink = MemSink::new(case.alloc, case.most.max(1), failing)?;
    print_sink_of(&case.files, is_put, &mut sink, out)
}

fn print_stream_to(
    files: &[File],
    held: &mut Vec<u8>,
    out: &mut Printed,
) -> Result<(), AllocError> {
    print_writes(files, true, &mut RealSink::new(&mut *held), out)?;
    print_contents(held, out)
}

/// What comes of writing the files to a stream that takes all, and what it holds then.
pub fn print_stream(case: &Case, out: &mut Printed) -> Result<(), AllocError> {
    let mut held = Vec::new(case.alloc);
    print_stream_to(&case.files, &mut held, out)
}

/// What comes of writing the files to a stream with room for two bytes.
pub fn print_full(case: &Case, out: &mut Printed) -> Result<(), AllocError> {
    let mut room = [0u8; 2];
    let mut sink = RealSink::new(&mut room[..]);
    print_writes(&case.files, true, &mut sink, out)
}
