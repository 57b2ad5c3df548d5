//! The variables of a case: `vars 7 7 1` declares three, by their widths, from number 0 on.

use case_rows::{Fault, small, words_from};
use std::alloc::Global;
use sv_outside::Name;
use svtv_table::VarDecl;

fn declared(alloc: Global, word: &[u8]) -> Result<VarDecl, Fault> {
    let width = small(word).ok_or(Fault::Form)?;
    if width == 0 || width > 128 {
        return Err(Fault::Form);
    }
    let name = Name::new(alloc, word)?;
    Ok(VarDecl { name, width })
}

/// The variables of a line, in place of those before.
pub fn declare(alloc: Global, vars: &mut Vec<VarDecl>, line: &[u8]) -> Result<(), Fault> {
    vars.clear();
    for word in words_from(line, 1).split(|c| *c == b' ') {
        if !word.is_empty() {
            let var = declared(alloc, word)?;
            vars.push(var)?;
        }
    }
    Ok(())
}
