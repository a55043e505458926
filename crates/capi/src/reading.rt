// Safety codes, and what strings are read as.
ghost use Rattle.std.specs.Prelude.{◌≡◌, pos, neg_ℤ};
ghost use Rattle.codec.specs.Frames.{frame_value, read_frame};
ghost use Rattle.packets.specs.Packets.{read_packet};
ghost use Rattle.terms.specs.Refusals.{refusal_number};
ghost use Rattle.safety.specs.Words.{code_of};
ghost use Rattle.capi.specs.Reading.{kind_number, frame_answer, packet_answer};

use codec::frame::Frame;
use packets::packet::{Packet, PacketType};
use safety::word::SafetyWord;
use terms::refusal::Refusal;

#[unsafe(no_mangle)]
pub extern "C" fn falldate_safety_code(word: u64, bytes: &[u8]) -> u64
    ensures { result ≡ code_of word bytes.now }
{
    SafetyWord(word).code(bytes).0
}

// A refusal's number below zero, where no kind and no type lies.
fn refused(refusal: Refusal) -> i32
    ensures { result ≡ neg_ℤ (pos (refusal_number refusal)) }
{
    -i32::from(u8::from(refusal))
}

fn kind(frame: Frame<'_>) -> i32
    ensures { result ≡ pos (kind_number (frame_value frame.entry)) }
{
    match frame {
        Frame::BareDi => 0,
        Frame::Au1 { .. } => 1,
        Frame::Au2 { .. } => 2,
        Frame::Au3 { .. } => 3,
        Frame::Ar { .. } => 4,
        Frame::Di { .. } => 5,
        Frame::Dt { .. } => 6,
    }
}

#[unsafe(no_mangle)]
pub extern "C" fn falldate_frame_kind(bytes: &[u8]) -> i32
    ensures { result ≡ frame_answer (read_frame bytes.now) }
{
    Frame::read(bytes).map_or_else(refused, kind)
}

#[unsafe(no_mangle)]
pub extern "C" fn falldate_packet_type(bytes: &[u8]) -> i32
    ensures { result ≡ packet_answer (read_packet bytes.now) }
{
    match Packet::read(bytes) {
        Ok(packet) => i32::from(u8::from(PacketType::of(packet.frame))),
        Err(refusal) => refused(refusal),
    }
}
