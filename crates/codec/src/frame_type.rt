// The types of frame: for each the lengths that it may have, and the reason of a release where its length is wrong.
ghost use Rattle.std.specs.Prelude.{◌≡◌, Some};
ghost use Rattle.codec.specs.FrameTypes.{codes_text, rule_of, suits_length, type_named};

use std::fmt;

#[derive(Clone, Copy, PartialEq, Eq, Debug)]
pub enum FrameType {
    Au1,
    Au2,
    Au3,
    Dt,
    Di,
    Ar,
}

// The two bytes by which a release says why.
#[derive(Clone, Copy, PartialEq, Eq, Debug)]
pub struct ReasonCodes {
    pub reason: u8,
    pub sub_reason: u8,
}

impl fmt::Display for ReasonCodes {
    ghost output = { λ codes. Some (codes_text codes) };

    fn fmt<W: fmt::Write>(&self, f: &mut fmt::Formatter<W>) -> fmt::Result {
        let ReasonCodes { reason, sub_reason } = *self;
        write!(f, "{reason}/{sub_reason}")
    }
}

// The lengths that a frame may have, the first byte and a safety code counted.
#[derive(Clone, Copy)]
pub enum Lengths {
    Exactly(usize),
    // this many bytes and a message
    WithMessage(usize),
}

#[derive(Clone, Copy)]
pub struct FrameRule {
    pub lengths: Lengths,
    pub wrong_length: ReasonCodes,
}

// By type, in the order of `FrameType`: the lengths, and the two bytes where the length is wrong.
const RULES: [(Lengths, u8, u8); 6] = [
    (Lengths::Exactly(13), 10, 1),
    (Lengths::Exactly(21), 10, 2),
    (Lengths::Exactly(9), 10, 3),
    (Lengths::WithMessage(18), 10, 5),
    (Lengths::Exactly(3), 8, 1),
    (Lengths::Exactly(9), 10, 8),
];

impl FrameType {
    // The type that a first byte names, whatever its flag.
    pub fn named(first: u8) -> Option<FrameType>
        ensures { result ≡ type_named first }
    {
        match first / 2 {
            1 => Some(FrameType::Au1),
            2 => Some(FrameType::Au2),
            3 => Some(FrameType::Au3),
            5 => Some(FrameType::Dt),
            8 => Some(FrameType::Di),
            9 => Some(FrameType::Ar),
            _ => None,
        }
    }

    // The row of the table.
    pub fn rule(self) -> FrameRule
        ensures { result ≡ rule_of self }
    {
        let (lengths, reason, sub_reason) = RULES[self as usize];
        FrameRule {
            lengths,
            wrong_length: ReasonCodes { reason, sub_reason },
        }
    }

    // Whether a frame of this type may have `len` bytes where a message has at most `most`.
    pub fn suits(self, len: usize, most: usize) -> bool
        ensures { result ≡ suits_length self len most }
    {
        match self.rule().lengths {
            Lengths::Exactly(n) => len == n,
            Lengths::WithMessage(least) => least <= len && len - least <= most,
        }
    }
}
