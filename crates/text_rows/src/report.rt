// Files of cases are run one after another, and what differs is told. A case is run when the next one begins or the file ends,
// since only then all of its lines are read. A file that can not be read counts as a difference, so that a wrong name never
// passes as no cases.
use crate::acts::act;
use crate::cases::{Case, is, parts, word_and_rest};
use crate::printed::Printed;
use std::alloc::{AllocError, Global};
use sv_outside::{Files, Name, RealFiles};

/// The files of the system.
pub type System = RealFiles<HostRuntime>;

/// What is printed of all files, and of one file how many cases there were, and how many others than they should be.
pub struct Report {
    printed: Printed,
    cases: usize,
    others: usize,
}

impl Drop for Report {
    fn drop(self) {
        let Report {
            printed: _,
            cases: _,
            others: _,
        } = self;
    }
}

impl Report {
    pub fn new(alloc: Global) -> Report {
        Report {
            printed: Printed::new(alloc),
            cases: 0,
            others: 0,
        }
    }

    pub fn bytes(&self) -> &[u8] {
        self.printed.bytes()
    }

    /// Runs the files of cases with these names.
    pub fn run_files(
        &mut self,
        alloc: Global,
        names: &[String],
        files: &mut System,
    ) -> Result<(), AllocError> {
        for name in names {
            self.run_file(alloc, name.as_bytes(), files)?;
            self.end(name.as_bytes())?;
        }
        Ok(())
    }

    fn run_file(
        &mut self,
        alloc: Global,
        name: &[u8],
        files: &mut System,
    ) -> Result<(), AllocError> {
        self.cases = 0;
        self.others = 0;
        let path = Name::new(alloc, name)?;
        match files.read(alloc, &path) {
            Ok(text) => self.run_text(alloc, &text, files),
            Err(_) => self.differs(name, b"", b"a file of cases\n"),
        }
    }

    fn run_text(
        &mut self,
        alloc: Global,
        text: &[u8],
        files: &mut System,
    ) -> Result<(), AllocError> {
        let lines = parts(alloc, text, b'\n')?;
        let mut case = Case::new(alloc);
        self.run_lines(&lines, &mut case, files)
    }

    fn run_lines(
        &mut self,
        lines: &[&[u8]],
        case: &mut Case,
        files: &mut System,
    ) -> Result<(), AllocError> {
        for line in lines {
            self.run_line(line, case, files)?;
        }
        self.judge(case, files)
    }

    fn run_line(
        &mut self,
        line: &[u8],
        case: &mut Case,
        files: &mut System,
    ) -> Result<(), AllocError> {
        let (word, _) = word_and_rest(line);
        if is(word, "case") {
            self.judge(case, files)?;
        }
        case.take(line)
    }

    // Runs the case that was read, where there is one.
    fn judge(&mut self, case: &Case, files: &mut System) -> Result<(), AllocError> {
        if case.name.is_empty() {
            return Ok(());
        }
        self.cases = self.cases.saturating_add(1);
        let mut printed = Printed::new(case.alloc);
        self.compare(case, files, &mut printed)
    }

    fn compare(
        &mut self,
        case: &Case,
        files: &mut System,
        printed: &mut Printed,
    ) -> Result<(), AllocError> {
        act(case, files, printed)?;
        if printed.bytes() == case.out.as_slice() {
            Ok(())
        } else {
            self.differs(&case.name, printed.bytes(), &case.out)
        }
    }

    fn differs(&mut self, name: &[u8], came: &[u8], wanted: &[u8]) -> Result<(), AllocError> {
        self.others = self.others.saturating_add(1);
        self.printed.text(name)?;
        self.printed.text(b"\ncame:\n")?;
        self.printed.text(came)?;
        self.printed.text(b"\nshould have come:\n")?;
        self.printed.text(wanted)?;
        self.printed.text(b"\n")
    }

    // The line of a file.
    fn end(&mut self, name: &[u8]) -> Result<(), AllocError> {
        self.printed.text(name)?;
        self.printed.text(b": ")?;
        self.printed.number(self.cases)?;
        if self.others == 0 {
            return self.printed.text(b" cases as they should be\n");
        }
        self.printed.text(b" cases, ")?;
        self.printed.number(self.others)?;
        self.printed.text(b" of them others than they should be\n")
    }
}
