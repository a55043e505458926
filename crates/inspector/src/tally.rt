// The counts that the last line of a report sums up.
ghost use Rattle.std.specs.Prelude.{◌≡◌};
ghost use Rattle.inspector.specs.Sessions.{finding_values};
ghost use Rattle.inspector.specs.Tallies.{nothing, more, seen_as, with_seen, counted};

use super::session::{Finding, Verdict};
use terms::refusal::Refusal;

// What a frame counts as.
#[derive(Clone, Copy)]
pub enum Seen {
    Refused,
    Other,
    Data(Verdict),
}

// What a line counts as.
#[derive(Clone, Copy)]
pub enum Outcome {
    Note,
    Wrong,
    Frame(Seen),
    Packet(Seen),
    Crc { agrees: bool },
}

// Each count stops at the largest number of 64 bits.
#[derive(Clone, Copy, Default)]
pub struct Tally {
    pub lines: u64,
    pub wrong: u64,
    pub frames: u64,
    pub packets: u64,
    pub refused: u64,
    // data frames that bear the connection's word, another one, or one that cannot be judged
    pub same: u64,
    pub different: u64,
    pub unknown: u64,
    pub crcs: u64,
    pub disagreeing: u64,
}

// One more, as far as 64 bits go.
fn raise(count: &mut u64)
    ensures { count.new ≡ more count.old }
{
    *count = count.saturating_add(1);
}

impl Tally {
    pub fn new() -> Tally
        ensures { result ≡ nothing }
    {
        Tally::default()
    }

    fn see(&mut self, seen: Seen)
        ensures { self.new ≡ with_seen self.old seen }
    {
        match seen {
            Seen::Refused => raise(&mut self.refused),
            Seen::Other => {}
            Seen::Data(Verdict::Same) => raise(&mut self.same),
            Seen::Data(Verdict::Different) => raise(&mut self.different),
            Seen::Data(Verdict::Unknown) => raise(&mut self.unknown),
        }
    }

    // Counts a line.
    pub fn count(&mut self, outcome: Outcome)
        ensures { self.new ≡ counted self.old outcome }
    {
        raise(&mut self.lines);
        match outcome {
            Outcome::Note => {}
            Outcome::Wrong => raise(&mut self.wrong),
            Outcome::Frame(seen) => {
                raise(&mut self.frames);
                self.see(seen);
            }
            Outcome::Packet(seen) => {
                raise(&mut self.packets);
                self.see(seen);
            }
            Outcome::Crc { agrees } => {
                raise(&mut self.crcs);
                if !agrees {
                    raise(&mut self.disagreeing);
                }
            }
        }
    }
}

impl From<Result<Finding<'_>, Refusal>> for Seen {
    ghost from_gives = { λ finding seen. seen ≡ seen_as (finding_values finding) };

    fn from(finding: Result<Finding<'_>, Refusal>) -> Seen {
        match finding {
            Err(_) => Seen::Refused,
            Ok(Finding::Dt { verdict, .. }) => Seen::Data(verdict),
            Ok(_) => Seen::Other,
        }
    }
}
