// Runs a redundant pair over a wire that is nearly full and one that loses, delays and repeats, and prints what each call answers;
// then writes and reads some packets.
#![tactic(auto)]

mod packed;
mod shown;

use carrier::Carrier;
use carrier::fault::{Choice, FaultWire};
use carrier::fifo::FifoWire;
use pair::RedundantPair;
use shown::Shown;
use std::alloc::{AllocError, Global};
use std::io;
use terms::role::Role;

// The normal wire has room for one short packet towards the responder, and the redundant one for several.
fn new_pair(heap: Global) -> Result<RedundantPair<FifoWire, FaultWire>, AllocError> {
    let choices = [(1, true), (0, false), (2, false), (9, false)].map(|(number, stays)| Choice {
        number,
        stays,
    });
    let normal = FifoWire::new(heap, 64, 16)?;
    let redundant = FaultWire::new(heap, 64, 64, Vec::from_array(heap, choices)?)?;
    Ok(RedundantPair::new(normal, redundant))
}

fn puts<C: Carrier>(shown: &mut Shown<'_, C>) -> io::Result<()> {
    let frames: [&[u8]; 5] = [&[0x0B, 1, 2], &[0x10, 5, 6], &[7; 60], &[], &[7; 1086]];
    for frame in frames {
        shown.put(Role::Initiator, frame)?;
    }
    Ok(())
}

fn fetches<C: Carrier>(shown: &mut Shown<'_, C>) -> io::Result<()> {
    for _turn in 0..8u8 {
        shown.fetch(Role::Responder)?;
    }
    shown.fetch(Role::Initiator)?;
    shown.fetch_into(Role::Responder, &mut [0u8; 1084])
}

fn main(rt: HostRuntime) -> io::Result<()> {
    let mut shown = Shown::new(&rt, new_pair(rt.alloc())?);
    shown.largest()?;
    puts(&mut shown)?;
    fetches(&mut shown)?;
    packed::show(&rt)
}
