// What is printed of the first line, a string with its checks, and a wrong line.
use super::check::{Checks, Walk};
use super::line::LineFault;
use super::parties::Parties;
use std::fmt;

impl fmt::Display for Parties {
    fn fmt<W: fmt::Write>(&self, f: &mut fmt::Formatter<W>) -> fmt::Result {
        let i = u64::from(self.identifiers.initiator);
        let r = u64::from(self.identifiers.responder);
        write!(f, "initiator={i:016X} responder={r:016X}")
    }
}

impl fmt::Display for Walk {
    fn fmt<W: fmt::Write>(&self, f: &mut fmt::Formatter<W>) -> fmt::Result {
        let Checks { first, second } = self.checks;
        let agrees = if self.agrees { "yes" } else { "no" };
        write!(f, "first={first:08X} second={second:08X} agrees={agrees}")
    }
}

impl fmt::Display for LineFault {
    fn fmt<W: fmt::Write>(&self, f: &mut fmt::Formatter<W>) -> fmt::Result {
        match self {
            LineFault::NoIdentifiers => f.write_str(
                "the first line is not two identifiers of 16 hexadecimal digits with a space between",
            ),
            LineFault::NoKind => {
                f.write_str("the line begins with none of 'frame ', 'packet ', 'crc ' and '#'")
            }
            LineFault::NotHex => {
                f.write_str("a value is not hexadecimal digits, or not as many as it has to be")
            }
        }
    }
}
