// The strings that wait for one side, packed one after the other from the start of a memory of fixed length.
ghost use Rattle.std.specs.Prelude.{◌≤◌, vec_len};
ghost use Rattle.carrier.specs.Packing.{Whole, Short, unpacked};

mod methods;

// A carrier allocates nothing after it is made, so a queue stays within one memory, of which it tells what is used.
#[derive(Drop)]
pub struct Queue {
    memory: Vec<u8>,
    used: usize,
    count: usize,
    ghost whole: { Whole memory.items used count },
    ghost room: { used ≤ vec_len memory },
    ghost short: { Short (unpacked count memory.items) },
}
