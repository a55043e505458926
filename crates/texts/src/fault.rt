// Why a file is refused, and where. A fault rises from a value to its line to its file; each level adds its place.
ghost use Rattle.std.specs.Prelude.{◌≡◌, Some};
ghost use Rattle.texts.specs.Faults.{fault_number, fault_at, whole_line, fault_on, file_word, fault_text};

use std::fmt;
use terms::failure::Cause;

#[derive(Clone, Copy)]
pub enum Fault {
    // the line of names differs
    NamesDiffer,
    // too few or too many values in a line, or lines in a file
    WrongCount,
    // a value has the wrong form
    WrongForm,
    // a value of the right form is outside its range
    OutOfRange,
    // too few or too many bits differ between two identifiers
    DifferingBits,
}

// The number under which a fault is reported.
impl From<Fault> for u8 {
    ghost from_gives = { λ fault n. n ≡ fault_number fault };

    fn from(fault: Fault) -> u8 {
        match fault {
            Fault::NamesDiffer => 1,
            Fault::WrongCount => 2,
            Fault::WrongForm => 3,
            Fault::OutOfRange => 4,
            Fault::DifferingBits => 5,
        }
    }
}

impl Fault {
    // The fault of the value in a column.
    pub fn at(self, column: u8) -> LineFault
        ensures { result ≡ fault_at column self }
    {
        let fault = self;
        LineFault { fault, column }
    }

    // The fault of a whole line.
    pub fn whole_line(self) -> LineFault
        ensures { result ≡ whole_line self }
    {
        self.at(0)
    }
}

// A fault in a line: of a value, by its column from 1, or of the whole line, in column 0.
#[derive(Clone, Copy)]
pub struct LineFault {
    pub fault: Fault,
    pub column: u8,
}

impl LineFault {
    // The fault of a line of a file.
    pub fn on(self, file: File, line: u16) -> FileFault
        ensures { result ≡ fault_on file line self }
    {
        let LineFault { fault, column } = self;
        FileFault {
            fault,
            file,
            line,
            column,
        }
    }
}

// The files that a railway writes.
#[derive(Clone, Copy)]
pub enum File {
    Sheet,
    Script,
}

impl fmt::Display for File {
    ghost output = { λ file. Some (file_word file) };

    fn fmt<W: fmt::Write>(&self, f: &mut fmt::Formatter<W>) -> fmt::Result {
        match self {
            File::Sheet => f.write_str("sheet"),
            File::Script => f.write_str("script"),
        }
    }
}

// A fault in a file, by its line from 1.
#[derive(Clone, Copy)]
pub struct FileFault {
    pub fault: Fault,
    pub file: File,
    pub line: u16,
    pub column: u8,
}

impl Cause for FileFault {}

// Shown on one line, without its end.
impl fmt::Display for FileFault {
    ghost output = { λ f. Some (fault_text f) };

    fn fmt<W: fmt::Write>(&self, f: &mut fmt::Formatter<W>) -> fmt::Result {
        let number = u8::from(self.fault);
        let FileFault {
            file,
            line,
            column,
            ..
        } = *self;
        write!(f, "fault {number} {file} {line} {column}")
    }
}
