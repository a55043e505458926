// What the frames of a session say one after another: its session numbers, and the word that its data frames should bear.
ghost use Rattle.std.specs.Prelude.{◌≡◌, Ok};
ghost use Rattle.codec.specs.Frames.{frame_value, read_frame};
ghost use Rattle.packets.specs.Packets.{read_packet};
ghost use Rattle.codec.specs.Sealing.{word_in, BearsOne};
ghost use Rattle.inspector.specs.Packets.{unwrapped, unwrapped_values, heard_in};
ghost use Rattle.inspector.specs.SessionLaws.{word_of, OpeningTells};
ghost use Rattle.inspector.specs.Sessions.{begun, unmixed, heard, word_towards, compared, finding_of, finding_values, found};

use captures::parties::Parties;
use codec::frame::Frame;
use codec::frame_type::ReasonCodes;
use codec::seal::bears;
use codec::telegram::Telegram;
use packets::packet::{Packet, PacketType, TransportNumber};
use safety::word::SafetyWord;
use terms::refusal::Refusal;
use terms::role::Role;

// What is known of a session so far.
#[derive(Clone, Copy)]
pub struct Session {
    pub parties: Option<Parties>,
    pub ra: Option<u64>,
    pub rb: Option<u64>,
    pub rc: Option<u64>,
}

// Whether a number or a word is the one that the session wants.
#[derive(Clone, Copy)]
pub enum Verdict {
    Same,
    Different,
    // the session's own number is not known yet
    Unknown,
}

// What a frame says, and what follows from it in the session.
#[derive(Clone, Copy)]
pub enum Finding<'a> {
    BareDi,
    Au1 {
        rb: u64,
    },
    Au2 {
        ra_xor_rb: u64,
        ra: Option<u64>,
    },
    Au3 {
        ra_xor_rc: u64,
        rc: Option<u64>,
    },
    Ar {
        rb: u64,
        echo: Verdict,
    },
    Di {
        towards: Role,
        codes: ReasonCodes,
    },
    Dt {
        towards: Role,
        telegram: Telegram<'a>,
        word: SafetyWord,
        verdict: Verdict,
    },
}

// A packet's own fields.
#[derive(Clone, Copy)]
pub struct Envelope {
    pub number: TransportNumber,
    // which cable it was written for: 1 the normal, 0 the redundant one
    pub n_r: u8,
    pub packet_type: PacketType,
}

// A packet, and what its frame says.
#[derive(Clone, Copy)]
pub struct Unwrapped<'a> {
    pub envelope: Envelope,
    pub frame: Result<Finding<'a>, Refusal>,
}

// One of two numbers, from both mixed and the other.
fn unmix(mix: u64, other: Option<u64>) -> Option<u64>
    ensures { result ≡ unmixed mix other }
{
    other.map(|number| mix ^ number)
}

fn compare<T: PartialEq + Copy>(x: T, wanted: Option<T>) -> Verdict
    ensures { result ≡ compared T.eq x wanted }
{
    match wanted {
        Some(y) if x == y => Verdict::Same,
        Some(_) => Verdict::Different,
        None => Verdict::Unknown,
    }
}

impl Session {
    // Before any frame has passed. `tells` is what the frames of an opening then make known.
    pub fn new(parties: Option<Parties>) -> Session
        ensures value { result ≡ begun parties }
        ensures tells { OpeningTells }
    {
        Session {
            parties,
            ra: None,
            rb: None,
            rc: None,
        }
    }

    // The word of the frames that the receiver is to accept.
    fn word_towards(self, receiver: Role) -> Option<SafetyWord>
        ensures { result ≡ word_towards self receiver }
    {
        let parties = self.parties?;
        let session = match receiver {
            Role::Initiator => self.ra,
            Role::Responder => self.rc,
        };
        session.map(|number| SafetyWord::of(*parties.identifiers.at(receiver), number))
    }

    // An AU1 begins anew; an AU2 gives Ra, an AU3 Rc.
    fn learn(&mut self, frame: Frame<'_>)
        ensures { self.new ≡ heard self.old (Ok (frame_value frame.entry)) }
    {
        match frame {
            Frame::Au1 { rb } => {
                self.rb = Some(rb);
                self.ra = None;
                self.rc = None;
            }
            Frame::Au2 { ra_xor_rb } => {
                self.ra = unmix(ra_xor_rb, self.rb);
                self.rc = None;
            }
            Frame::Au3 { ra_xor_rc } => self.rc = unmix(ra_xor_rc, self.ra),
            _ => {}
        }
    }

    // What the frame says in this session; `word` is the one that it bears, if it is a data frame.
    fn judge<'a>(self, frame: Frame<'a>, word: Option<SafetyWord>) -> Result<Finding<'a>, Refusal>
        requires { word ≡ word_in (Ok (frame_value frame)) }
        ensures { finding_values result ≡ finding_of self (frame_value frame.entry) }
    {
        match frame {
            Frame::BareDi => Ok(Finding::BareDi),
            Frame::Au1 { rb } => Ok(Finding::Au1 { rb }),
            Frame::Au2 { ra_xor_rb } => Ok(Finding::Au2 {
                ra_xor_rb,
                ra: self.ra,
            }),
            Frame::Au3 { ra_xor_rc } => Ok(Finding::Au3 {
                ra_xor_rc,
                rc: self.rc,
            }),
            Frame::Ar { rb } => Ok(Finding::Ar {
                rb,
                echo: compare(rb, self.rb),
            }),
            Frame::Di { towards, codes } => Ok(Finding::Di { towards, codes }),
            Frame::Dt {
                towards,
                telegram,
                ..
            } => {
                let word = word.unwrap();
                Ok(Finding::Dt {
                    towards,
                    telegram: Telegram::read(telegram)?,
                    word,
                    verdict: compare(word, self.word_towards(towards)),
                })
            }
        }
    }

    // Takes the next frame of the session. `one` says that the word found is the only one that the string bears, and that it bears none where none is found.
    pub fn frame<'a>(&mut self, s: &'a [u8]) -> Result<Finding<'a>, Refusal>
        ensures answer { finding_values result ≡ found self.old (read_frame s.now) }
        ensures after { self.new ≡ heard self.old (read_frame s.now) }
        ensures one { BearsOne s.now (word_of (finding_values result)) }
    {
        let word = bears(s);
        let frame = Frame::read(s)?;
        self.learn(frame);
        self.judge(frame, word)
    }

    // Takes the next packet, and the frame in it.
    pub fn packet<'a>(&mut self, s: &'a [u8]) -> Result<Unwrapped<'a>, Refusal>
        ensures answer { unwrapped_values result ≡ unwrapped self.old s.now (read_packet s.now) }
        ensures after { self.new ≡ heard_in self.old (read_packet s.now) }
    {
        let packet = Packet::read(s)?;
        Ok(Unwrapped {
            envelope: Envelope {
                number: packet.number,
                n_r: s[4],
                packet_type: PacketType::of(packet.frame),
            },
            frame: self.frame(packet.frame),
        })
    }
}
