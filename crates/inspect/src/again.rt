// Whether writing what was read gives back the same bytes: `Different` is for bytes that reading ignores,
// `Unknown` for a packet that is longer than any carrier takes.
use carrier::GREATEST_LENGTH;
use codec::frame::Frame;
use inspector::session::Verdict;
use packets::packet::{Cable, Packet};
use terms::refusal::Refusal;

fn same(written: Result<usize, Refusal>, out: &[u8], s: &[u8]) -> Verdict {
    match written.ok().and_then(|n| out.get(..n)) {
        Some(bytes) if bytes == s => Verdict::Same,
        Some(_) => Verdict::Different,
        None => Verdict::Unknown,
    }
}

pub fn frame_again(s: &[u8]) -> Verdict {
    let mut out = [0; GREATEST_LENGTH];
    let written = Frame::read(s).and_then(|frame| frame.write(&mut out));
    same(written, &out, s)
}

pub fn packet_again(s: &[u8], n_r: u8) -> Verdict {
    let mut out = [0; GREATEST_LENGTH];
    let cable = if n_r == 1 {
        Cable::Normal
    } else {
        Cable::Redundant
    };
    let written = Packet::read(s).and_then(|packet| packet.write(cable, &mut out));
    same(written, &out, s)
}
