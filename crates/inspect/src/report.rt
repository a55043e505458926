// What is printed of the lines of a capture, one after another.
use super::again::{frame_again, packet_again};
use captures::check::Walk;
use captures::hex::decode;
use captures::line::{Line, LineFault};
use captures::parties::Parties;
use inspector::session::{Session, Verdict};
use inspector::show::Answer;
use inspector::tally::{Outcome, Seen};
use std::{fmt, io};
use terms::failure::Failure;

// What is known of the session, and the number of the line that was read last.
#[derive(Drop)]
pub struct Report<'a> {
    rt: &'a HostRuntime,
    session: Session,
    number: u64,
}

impl<'a> Report<'a> {
    pub fn new(rt: &'a HostRuntime) -> Report<'a> {
        Report {
            rt,
            session: Session::new(None),
            number: 0,
        }
    }

    // Takes the next line, without the LF that ends it.
    pub fn line(&mut self, line: &[u8]) -> io::Result<Outcome> {
        self.number = self.number.saturating_add(1);
        if self.number == 1 {
            return self.first_line(line);
        }
        match Line::read(line) {
            Ok(read) => self.read_line(read),
            Err(fault) => self.wrong_line(fault),
        }
    }

    fn wrong_line(&self, fault: LineFault) -> io::Result<Outcome> {
        let number = self.number;
        println!(self.rt; "{number} wrong line: {fault}")?;
        Ok(Outcome::Wrong)
    }

    fn first_line(&mut self, line: &[u8]) -> io::Result<Outcome> {
        match Parties::read(line) {
            Ok(parties) => {
                self.session = Session::new(Some(parties));
                println!(self.rt; "1 identifiers {parties}")?;
                Ok(Outcome::Note)
            }
            Err(fault) => self.wrong_line(fault),
        }
    }

    fn read_line(&mut self, line: Line<'_>) -> io::Result<Outcome> {
        let text = match line {
            Line::Note => return Ok(Outcome::Note),
            Line::Frame(text) | Line::Packet(text) | Line::Crc { bytes: text, .. } => text,
        };
        let decoded = match decode(self.rt.alloc(), text) {
            Ok(decoded) => decoded,
            Err(Failure::Cause(fault)) => return self.wrong_line(fault),
            Err(Failure::NoMemory) => return Err(io::Error::from(io::ErrorKind::OutOfMemory)),
        };
        let bytes = decoded.as_slice();
        match line {
            Line::Note => Ok(Outcome::Note),
            Line::Frame(_) => self.frame_line(bytes),
            Line::Packet(_) => self.packet_line(bytes),
            Line::Crc { checks, .. } => self.crc_line(Walk::of(bytes, checks)),
        }
    }

    // The line of a frame or a packet, with what writing it again gives where it was read.
    fn answer_line<T: fmt::Display + Drop>(
        &self,
        kind: &str,
        answer: Answer<T>,
        again: Option<Verdict>,
    ) -> io::Result<()> {
        let number = self.number;
        match again {
            Some(again) => println!(self.rt; "{number} {kind} {answer} again={again}"),
            None => println!(self.rt; "{number} {kind} {answer}"),
        }
    }

    fn frame_line(&mut self, bytes: &[u8]) -> io::Result<Outcome> {
        let finding = self.session.frame(bytes);
        let again = finding.ok().map(|_| frame_again(bytes));
        self.answer_line("frame", Answer(finding), again)?;
        Ok(Outcome::Frame(Seen::from(finding)))
    }

    fn packet_line(&mut self, bytes: &[u8]) -> io::Result<Outcome> {
        let packet = self.session.packet(bytes);
        let again = packet
            .ok()
            .map(|unwrapped| packet_again(bytes, unwrapped.envelope.n_r));
        self.answer_line("packet", Answer(packet), again)?;
        let finding = packet.and_then(|unwrapped| unwrapped.frame);
        Ok(Outcome::Packet(Seen::from(finding)))
    }

    fn crc_line(&self, walk: Walk) -> io::Result<Outcome> {
        let number = self.number;
        println!(self.rt; "{number} crc {walk}")?;
        Ok(Outcome::Crc {
            agrees: walk.agrees,
        })
    }
}
