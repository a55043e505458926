// Why a call says no: one list for the whole project, each with its number.
ghost use Rattle.std.specs.Prelude.{◌≡◌};
ghost use Rattle.terms.specs.Refusals.{refusal_number};

#[derive(Clone, Copy, PartialEq, Eq, Debug)]
pub enum Refusal {
    // the carrier's largest length is below the longest frame
    CarrierTooNarrow,
    // a fetch buffer or an output buffer is too short
    BufferTooShort,
    // the end is out
    EndIsOut,
    // the message is longer than the parameter set allows
    MessageTooLong,
    // a message meets an end that is not up
    EndNotUp,
    // a string put is longer than the carrier's largest length
    StringTooLong,
    // a packet is shorter than its layout, or its length field is wrong
    PacketLength,
    // a packet's type, or its mark byte, does not suit
    PacketType,
    // a frame's first byte is none that is known
    FrameType,
    // a frame's length does not suit its type
    FrameLength,
    // a frame's fixed bytes differ
    FrameFixed,
}

// The number under which a refusal is reported.
impl From<Refusal> for u8 {
    ghost from_gives = { λ refusal n. n ≡ refusal_number refusal };

    fn from(refusal: Refusal) -> u8 {
        match refusal {
            Refusal::CarrierTooNarrow => 6,
            Refusal::BufferTooShort => 7,
            Refusal::EndIsOut => 8,
            Refusal::MessageTooLong => 9,
            Refusal::EndNotUp => 10,
            Refusal::StringTooLong => 11,
            Refusal::PacketLength => 12,
            Refusal::PacketType => 13,
            Refusal::FrameType => 14,
            Refusal::FrameLength => 15,
            Refusal::FrameFixed => 16,
        }
    }
}
