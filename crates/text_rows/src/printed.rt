// What is printed.
use case_rows::put_size;
use std::alloc::{AllocError, Global};
use sv_outside::Place;

/// Bytes, one behind the other, and the number of the file whose places are printed without it.
pub struct Printed {
    bytes: Vec<u8>,
    file: usize,
}

impl Drop for Printed {
    fn drop(self) {
        let Printed { bytes: _, file: _ } = self;
    }
}

impl Printed {
    pub fn new(alloc: Global) -> Printed {
        Printed {
            bytes: Vec::new(alloc),
            file: 0,
        }
    }

    pub fn bytes(&self) -> &[u8] {
        &self.bytes
    }

    pub fn text(&mut self, text: &[u8]) -> Result<(), AllocError> {
        self.bytes.extend_from_slice(text)
    }

    /// From here on the places of that file are printed without it.
    pub fn of_file(&mut self, file: usize) {
        self.file = file;
    }

    /// Ends a line in which something stands.
    pub fn line(&mut self) -> Result<(), AllocError> {
        match self.bytes.last() {
            None | Some(b'\n') => Ok(()),
            Some(_) => self.text(b"\n"),
        }
    }

    /// A text behind what was printed in this line, with a blank between.
    pub fn next(&mut self, text: &[u8]) -> Result<(), AllocError> {
        if !matches!(self.bytes.last(), None | Some(b'\n')) {
            self.text(b" ")?;
        }
        self.text(text)
    }

    pub fn number(&mut self, number: usize) -> Result<(), AllocError> {
        match put_size(&mut self.bytes, number) {
            Ok(()) => Ok(()),
            Err(_) => Err(AllocError),
        }
    }

    /// `LINE:COLUMN`, behind `FILE/` where that is another file.
    pub fn place(&mut self, place: Place) -> Result<(), AllocError> {
        if place.file != self.file {
            self.number(place.file)?;
            self.text(b"/")?;
        }
        self.number(place.line)?;
        self.text(b":")?;
        self.number(place.column)
    }
}
