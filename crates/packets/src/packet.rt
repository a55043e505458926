// Packets: the envelope in which the redundancy layer carries a frame, with a transport number.
ghost use Rattle.std.specs.Prelude.{◌≡◌, ◌+◌, ◌^◌, ◌<◌, [], ◌∷◌, ◌++◌, length, Ok, Err, MatchResult};
ghost use Rattle.terms.specs.Numbers.{bytes};
ghost use Rattle.terms.specs.declared.refusal.Refusal.TheVariants as refusal;
ghost use Rattle.packets.specs.Packets.{packet_value, packet_values, mark, type_code, type_of, preamble, coded_type, frame_in, packet_bytes, countable, read_packet, wrap_answer, wrap_after};
ghost use Rattle.packets.specs.PacketLaws.{Judged, WrittenAgain, ReadBack};

use terms::laying::lay;
use terms::layout;
use terms::layout::Layout;
use terms::refusal::Refusal;

// As many bytes as the length field can count.
const LARGEST_COUNT: usize = 0xFFFF;

// The number that tells a packet from the others of its side, so that one of two copies is handed out.
#[derive(Clone, Copy, PartialEq, Eq, Debug)]
pub struct TransportNumber(pub u16);

// Which of the two carriers a packet is written for.
#[derive(Clone, Copy, PartialEq, Eq, Debug)]
pub enum Cable {
    Normal,
    Redundant,
}

// The N/R byte, which reading ignores.
impl From<Cable> for u8 {
    ghost from_gives = { λ cable n. n ≡ mark cable };

    fn from(cable: Cable) -> u8 {
        match cable {
            Cable::Normal => 1,
            Cable::Redundant => 0,
        }
    }
}

// The four types of packet, named after the frames for which they were made: AU3, AR and DT frames all go in `Data`.
#[derive(Clone, Copy, PartialEq, Eq, Debug)]
pub enum PacketType {
    Au1,
    Au2,
    Data,
    Di,
}

// The type byte.
impl From<PacketType> for u8 {
    ghost from_gives = { λ kind n. n ≡ type_code kind };

    fn from(kind: PacketType) -> u8 {
        match kind {
            PacketType::Au1 => 1,
            PacketType::Au2 => 2,
            PacketType::Data => 3,
            PacketType::Di => 4,
        }
    }
}

impl TryFrom<u8> for PacketType {
    type Error = Refusal;

    ghost try_from_gives = { λ code r. r ≡ coded_type code };

    fn try_from(code: u8) -> Result<PacketType, Refusal> {
        match code {
            1 => Ok(PacketType::Au1),
            2 => Ok(PacketType::Au2),
            3 => Ok(PacketType::Data),
            4 => Ok(PacketType::Di),
            _ => Err(Refusal::PacketType),
        }
    }
}

impl PacketType {
    // The type of the packet that a frame goes in: a packet that was read has no other.
    pub fn of(frame: &[u8]) -> PacketType
        ensures { result ≡ type_of frame.now }
    {
        match frame {
            [] => PacketType::Di,
            [0x02, ..] => PacketType::Au1,
            [0x05, ..] => PacketType::Au2,
            [0x10, ..] | [0x11, ..] => PacketType::Di,
            _ => PacketType::Data,
        }
    }

    // What is written before the frame: ignored bytes, and in an AU1 packet a 03.
    fn preamble(self) -> &'static [u8]
        ensures { result.now ≡ preamble self }
    {
        match self {
            PacketType::Au1 => &[0, 0, 0, 0, 0, 0, 0, 0, 3],
            PacketType::Au2 => &[0, 0, 0, 0],
            PacketType::Data | PacketType::Di => &[],
        }
    }

    // The frame in what follows the type byte.
    fn frame_in(self, body: &[u8]) -> Result<&[u8], Refusal>
        ensures { MatchResult result (λ f. frame_in self body.now ≡ Ok f.now) (λ e. frame_in self body.now ≡ Err e) }
    {
        match self {
            PacketType::Au1 => match body {
                [_, _, _, _, _, _, _, _, 3, frame @ ..] => Ok(frame),
                [_, _, _, _, _, _, _, _, _, ..] => Err(Refusal::PacketType),
                _ => Err(Refusal::PacketLength),
            },
            PacketType::Au2 => match body {
                [_, _, _, _, frame @ ..] => Ok(frame),
                _ => Err(Refusal::PacketLength),
            },
            PacketType::Data | PacketType::Di => Ok(body),
        }
    }
}

// A frame with its transport number, borrowed from the string that it was read from.
#[derive(Clone, Copy)]
pub struct Packet<'a> {
    pub number: TransportNumber,
    pub frame: &'a [u8],
}

// First the lengths, then the type and what belongs to it.
fn parse(s: &[u8]) -> Result<Packet<'_>, Refusal>
    ensures { packet_values result ≡ read_packet s.now }
{
    let [length1, length0, number1, number0, _, code, body @ ..] = s else {
        return Err(Refusal::PacketLength);
    };
    if usize::from(u16::from_be_bytes([*length1, *length0])) + 2 != s.len() {
        return Err(Refusal::PacketLength);
    }
    let kind = PacketType::try_from(*code)?;
    let frame = kind.frame_in(body)?;
    if PacketType::of(frame) != kind {
        return Err(Refusal::PacketType);
    }
    Ok(Packet {
        number: TransportNumber(u16::from_be_bytes([*number1, *number0])),
        frame,
    })
}

// A packet that is to be written for a cable.
#[derive(Clone, Copy)]
struct Wrapped<'a> {
    packet: Packet<'a>,
    cable: Cable,
}

impl Wrapped<'_> {
    // How many bytes stand behind the length field.
    fn count(&self) -> usize
        ensures value { result ≡ 4 + (length (preamble (type_of self.now.packet.frame.now)) + length self.now.packet.frame.now) }
        ensures bound { result < 2 ^ 63 + 13 }
    {
        let preamble = PacketType::of(self.packet.frame).preamble();
        4 + preamble.len() + self.packet.frame.len()
    }
}

impl Layout for Wrapped<'_> {
    ghost bytes = { λ it. packet_bytes (packet_value it.packet) it.cable };

    ghost fits = { λ it. countable (packet_bytes (packet_value it.packet) it.cable) };

    ghost unfit = { refusal.StringTooLong };

    ghost read_back = { λ it s. read_packet s ≡ Ok (packet_value it.packet) };

    fn size(&self) -> usize {
        self.count() + 2
    }

    fn check(&self) -> Result<(), Refusal> {
        if self.count() > LARGEST_COUNT {
            return Err(Refusal::StringTooLong);
        }
        Ok(())
    }

    #[tactic(auto, using(crate::proofs::PacketLaws::read_back))]
    fn lay(&self, out: &mut [u8]) {
        let preamble = PacketType::of(self.packet.frame).preamble();
        let head = self.packet.head(self.count(), self.cable);
        lay(out, &head, preamble, self.packet.frame)
    }
}

impl<'a> Packet<'a> {
    // Reads a string as the one packet it is, or refuses it: lengths first, then the type.
    pub fn read(s: &'a [u8]) -> Result<Packet<'a>, Refusal>
        ensures answer { packet_values result ≡ read_packet s.now }
        ensures judged { Judged s.now (packet_values result) }
        ensures again { WrittenAgain s.now (packet_values result) }
    {
        parse(s)
    }

    // What stands before the preamble: how many bytes follow, the transport number, the N/R byte and the type byte.
    fn head(self, count: usize, cable: Cable) -> [u8; 6]
        ensures value { result ≡ bytes 2 count ++ (bytes 2 (packet_value self.entry).number ++ (mark cable ∷ type_code (type_of (packet_value self.entry).frame) ∷ [])) }
        ensures fits { (packet_value self.entry).number < 2 ^ 16 }
    {
        let [.., length1, length0] = count.to_be_bytes();
        let [number1, number0] = self.number.0.to_be_bytes();
        let kind = PacketType::of(self.frame);
        [
            length1,
            length0,
            number1,
            number0,
            u8::from(cable),
            u8::from(kind),
        ]
    }

    // Writes the packet for a cable to the start of `out`, and answers its length.
    // An `out` that is too short is refused, and then a frame that is too long for the length field; both leave `out` as it was.
    pub fn write(self, cable: Cable, out: &mut [u8]) -> Result<usize, Refusal>
        ensures answer { result ≡ wrap_answer (packet_bytes (packet_value self.entry) cable) out.old }
        ensures after { out.new ≡ wrap_after (packet_bytes (packet_value self.entry) cable) out.old }
        ensures back { ReadBack (packet_value self.entry) result out.new }
    {
        layout::write(
            &Wrapped {
                packet: self,
                cable,
            },
            out,
        )
    }
}
