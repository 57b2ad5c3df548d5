// The files of a self test. They are no files in memory, of which a reader would have to be told that none of its reads fails: these
// count no faults, so what reads them leaves nothing unread.
ghost use Rattle.std.specs.Prelude.{◌≡◌, ◌≤◌, Some, IfOk};
ghost use Rattle.svtv_selftest.specs.Texts.{design_name, goals_name, most, table_name, told};

use crate::texts::{design_text, goals_text, table_text};
use std::alloc::{AllocError, Global};
use sv_outside::{FileErr, Files, Name};

/// The files of a self test with so many registers: its design `st.sv`, its table `st.csv` and its goals `st.txt`. Each other name
/// is that of an empty file. A text is made when it is read.
#[derive(Clone, Copy)]
pub struct TestFiles {
    pub count: u64,
    ghost low: { 1 ≤ count },
    ghost high: { count ≤ most },
}

fn text_of(alloc: Global, files: TestFiles, name: &[u8]) -> Result<Vec<u8>, AllocError>
    ensures { IfOk result (λ text. told files.count name.now ≡ Some text.items) }
{
    if name == b"st.sv".as_slice() {
        design_text(alloc, files.count)
    } else if name == b"st.csv".as_slice() {
        table_text(alloc, files.count)
    } else if name == b"st.txt".as_slice() {
        goals_text(alloc, files.count)
    } else {
        Ok(Vec::new(alloc))
    }
}

impl Files for TestFiles {
    ghost contents = { λ files name. told files.count name };

    ghost faults = { λ files. 0 };

    /// The text of that name. Want of memory is the one other answer.
    fn read(&mut self, alloc: Global, name: &Name) -> Result<Vec<u8>, FileErr> {
        match text_of(alloc, *self, name.bytes()) {
            Ok(text) => Ok(text),
            Err(_) => Err(FileErr::Memory),
        }
    }
}
