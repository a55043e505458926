// Packets as they are written and read.
use packets::packet::{Cable, Packet, TransportNumber};
use std::io;

fn show_written(rt: &HostRuntime, packet: Packet<'_>, cable: Cable) -> io::Result<()> {
    let mut out = [0u8; 32];
    match packet.write(cable, &mut out) {
        Ok(n) => {
            let packet = &out[..n];
            println!(rt; "write: {packet:?}")
        }
        Err(refusal) => println!(rt; "write: {refusal:?}"),
    }
}

fn show_read(rt: &HostRuntime, packet: &[u8]) -> io::Result<()> {
    match Packet::read(packet) {
        Ok(Packet { number, frame }) => {
            let number = number.0;
            println!(rt; "read: {number} {frame:?}")
        }
        Err(refusal) => println!(rt; "read: {refusal:?}"),
    }
}

fn writes(rt: &HostRuntime) -> io::Result<()> {
    let packets: [(u16, Cable, &[u8]); 5] = [
        (258, Cable::Normal, &[0x0B, 1, 2]),
        (1, Cable::Redundant, &[0x02, 9]),
        (65535, Cable::Normal, &[0x05]),
        (0, Cable::Redundant, &[]),
        (0, Cable::Normal, &[7; 27]),
    ];
    for (number, cable, frame) in packets {
        let number = TransportNumber(number);
        show_written(rt, Packet { number, frame }, cable)?;
    }
    Ok(())
}

fn reads(rt: &HostRuntime) -> io::Result<()> {
    let strings: [&[u8]; 8] = [
        // any byte stands for N/R, and any bytes where ignored ones are
        &[0, 7, 1, 2, 9, 3, 0x0B, 1, 2],
        &[0, 9, 255, 255, 1, 2, 8, 8, 8, 8, 0x05],
        // too short, a wrong length field, an AU1 packet without its layout
        &[0, 3, 0, 0, 1],
        &[0, 5, 0, 0, 1, 4],
        &[0, 5, 0, 0, 1, 1, 3],
        // an unknown type, no 03, a type that is not the frame's
        &[0, 4, 0, 0, 1, 5],
        &[0, 14, 0, 0, 1, 1, 0, 0, 0, 0, 0, 0, 0, 0, 4, 0x02],
        &[0, 4, 0, 0, 1, 3],
    ];
    for string in strings {
        show_read(rt, string)?;
    }
    Ok(())
}

pub fn show(rt: &HostRuntime) -> io::Result<()> {
    writes(rt)?;
    reads(rt)
}
