// What is printed of a frame, a packet, and the sum.
use super::session::{Envelope, Finding, Unwrapped, Verdict};
use super::tally::Tally;
use codec::telegram::{Content, Telegram};
use packets::packet::TransportNumber;
use std::fmt;
use terms::refusal::Refusal;
use terms::role::Role;

// Bytes as hexadecimal digits, `-` for none.
#[derive(Clone, Copy)]
struct Bytes<'a>(&'a [u8]);

impl fmt::Display for Bytes<'_> {
    fn fmt<W: fmt::Write>(&self, f: &mut fmt::Formatter<W>) -> fmt::Result {
        if self.0.is_empty() {
            return f.write_str("-");
        }
        for b in self.0 {
            let x = *b;
            write!(f, "{x:02X}")?;
        }
        Ok(())
    }
}

// A session number, `?` where it is not known.
#[derive(Clone, Copy)]
struct Known(Option<u64>);

impl fmt::Display for Known {
    fn fmt<W: fmt::Write>(&self, f: &mut fmt::Formatter<W>) -> fmt::Result {
        match self.0 {
            Some(x) => write!(f, "{x:016X}"),
            None => f.write_str("?"),
        }
    }
}

// The direction of a frame towards a party.
#[derive(Clone, Copy)]
struct Way(Role);

impl fmt::Display for Way {
    fn fmt<W: fmt::Write>(&self, f: &mut fmt::Formatter<W>) -> fmt::Result {
        let towards = self.0;
        let from = towards.far();
        write!(f, "{from}->{towards}")
    }
}

impl fmt::Display for Verdict {
    fn fmt<W: fmt::Write>(&self, f: &mut fmt::Formatter<W>) -> fmt::Result {
        match self {
            Verdict::Same => f.write_str("yes"),
            Verdict::Different => f.write_str("no"),
            Verdict::Unknown => f.write_str("?"),
        }
    }
}

// A telegram by its name, with SN, EC and what follows them.
#[derive(Clone, Copy)]
struct Shown<'a>(Telegram<'a>);

impl fmt::Display for Shown<'_> {
    fn fmt<W: fmt::Write>(&self, f: &mut fmt::Formatter<W>) -> fmt::Result {
        let sn = self.0.sn.0;
        let ec = self.0.ec.0;
        match self.0.content {
            Content::EcStart { version, period } => {
                write!(
                    f,
                    "ECStart sn={sn} ec={ec} version={version} period={period}"
                )
            }
            Content::Am(message) => {
                let m = Bytes(message);
                write!(f, "AM sn={sn} ec={ec} message={m}")
            }
            Content::AmReq(message) => {
                let m = Bytes(message);
                write!(f, "AM+REQ sn={sn} ec={ec} message={m}")
            }
            Content::AmAck(message) => {
                let m = Bytes(message);
                write!(f, "AM+ACK sn={sn} ec={ec} message={m}")
            }
            Content::Other { type_byte, body } => {
                let b = Bytes(body);
                write!(f, "telegram {type_byte:02X} sn={sn} ec={ec} body={b}")
            }
        }
    }
}

impl fmt::Display for Finding<'_> {
    fn fmt<W: fmt::Write>(&self, f: &mut fmt::Formatter<W>) -> fmt::Result {
        match *self {
            Finding::BareDi => f.write_str("bare-DI -"),
            Finding::Au1 { rb } => write!(f, "AU1 I->R rb={rb:016X}"),
            Finding::Au2 { ra_xor_rb, ra } => {
                let known = Known(ra);
                write!(f, "AU2 R->I ra_xor_rb={ra_xor_rb:016X} ra={known}")
            }
            Finding::Au3 { ra_xor_rc, rc } => {
                let known = Known(rc);
                write!(f, "AU3 I->R ra_xor_rc={ra_xor_rc:016X} rc={known}")
            }
            Finding::Ar { rb, echo } => write!(f, "AR R->I rb={rb:016X} echo={echo}"),
            Finding::Di { towards, codes } => {
                let way = Way(towards);
                let reason = codes.reason;
                let sub_reason = codes.sub_reason;
                write!(f, "DI {way} reason={reason} sub_reason={sub_reason}")
            }
            Finding::Dt {
                towards,
                telegram,
                word,
                verdict,
            } => {
                let way = Way(towards);
                let t = Shown(telegram);
                let w = word.0;
                write!(f, "DT {way} {t} word={w:016X} connection={verdict}")
            }
        }
    }
}

// What a frame or a packet says, or that it is refused.
#[derive(Clone, Copy)]
pub struct Answer<T>(pub Result<T, Refusal>);

impl<T: fmt::Display> fmt::Display for Answer<T> {
    fn fmt<W: fmt::Write>(&self, f: &mut fmt::Formatter<W>) -> fmt::Result {
        match &self.0 {
            Ok(answer) => answer.fmt(f),
            Err(refusal) => {
                let n = u8::from(*refusal);
                write!(f, "refused {n}")
            }
        }
    }
}

impl fmt::Display for Unwrapped<'_> {
    fn fmt<W: fmt::Write>(&self, f: &mut fmt::Formatter<W>) -> fmt::Result {
        let envelope = self.envelope;
        let answer = Answer(self.frame);
        write!(f, "{envelope} frame {answer}")
    }
}

impl fmt::Display for Envelope {
    fn fmt<W: fmt::Write>(&self, f: &mut fmt::Formatter<W>) -> fmt::Result {
        let Envelope {
            number: TransportNumber(number),
            n_r,
            packet_type,
        } = *self;
        let code = u8::from(packet_type);
        write!(f, "number={number} n/r={n_r} type={code}")
    }
}

impl fmt::Display for Tally {
    fn fmt<W: fmt::Write>(&self, f: &mut fmt::Formatter<W>) -> fmt::Result {
        let Tally {
            lines,
            wrong,
            frames,
            packets,
            refused,
            same,
            different,
            unknown,
            crcs,
            disagreeing,
        } = *self;
        write!(
            f,
            "sum lines={lines} wrong={wrong} frames={frames} packets={packets} refused={refused} "
        )?;
        write!(
            f,
            "connection={same} other={different} unknown={unknown} crc={crcs} disagreeing={disagreeing}"
        )
    }
}
