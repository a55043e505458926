// The one line that a faulty file gives.
ghost use Rattle.std.specs.Prelude.{Some};
ghost use Rattle.rehearsal.specs.Faults.{fault_line};

use std::fmt;
use texts::fault::FileFault;

// A fault as it is printed: its text, and the end of its line.
#[derive(Clone, Copy)]
pub struct FaultLine(pub FileFault);

impl fmt::Display for FaultLine {
    ghost output = { λ f. Some (fault_line f.0) };

    fn fmt<W: fmt::Write>(&self, f: &mut fmt::Formatter<W>) -> fmt::Result {
        let fault = self.0;
        write!(f, "{fault}\n")
    }
}
