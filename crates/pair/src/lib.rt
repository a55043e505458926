// A carrier over two carriers: each frame goes out on both, and comes out once.
#![tactic(auto)]

ghost use Rattle.std.specs.Prelude.{◌≡◌, ℕ, ◌+◌, ◌<◌, ◌≤◌, length, replicate, None};
ghost use Rattle.terms.specs.declared.role.Role.{Role};
ghost use Rattle.packets.specs.Packets.{packet_bytes, packet_value};
ghost use Rattle.carrier.specs.Rules.{PutRules, FetchRules, greatest_length};
ghost use Rattle.pair.specs.Counts.{next_number, last_number, advanced};
ghost use Rattle.pair.specs.Frames.{packet_overhead, pair_largest, pair_meaning, gives, taken_of, written};
ghost use Rattle.pair.specs.Pairs.{numbered, kept_either, BothPut, PairPut, PairFetch, Asked, AskedInTurn};
ghost use Rattle.std.proofs.Common.{rules};

mod counters;

use carrier::{Carrier, GREATEST_LENGTH, Keeping};
use counters::{Numbers, is_newer};
use packets::packet::{Cable, Packet, TransportNumber};
use terms::refusal::Refusal;
use terms::role::Role;
use terms::sides::Sides;

// As many bytes as a packet adds to a frame at most.
pub const PACKET_OVERHEAD: usize = 15;

// A frame that was written to a buffer.
#[derive(Clone, Copy)]
struct Taken {
    number: TransportNumber,
    len: usize,
}

// Puts a packet as it is written for a cable.
fn put_packet<C: Carrier>(
    carrier: &mut C,
    from: Role,
    packet: Packet<'_>,
    cable: Cable,
) -> Result<Keeping, Refusal>
    requires { length packet.frame.now + packet_overhead ≤ greatest_length }
    ensures rules { PutRules (C.meaning carrier.old) (C.meaning carrier.new) from (packet_bytes (packet_value packet.entry) cable) result }
    ensures exact { C.putting carrier.old from (packet_bytes (packet_value packet.entry) cable) result carrier.new }
{
    let mut bytes = [0u8; GREATEST_LENGTH];
    let n = packet.write(cable, &mut bytes).unwrap();
    carrier.put(from, &bytes[..n])
}

// Kept by either carrier.
fn either(first: Result<Keeping, Refusal>, second: Result<Keeping, Refusal>) -> Keeping
    ensures { result ≡ kept_either first second }
{
    match (first, second) {
        (Ok(Keeping::Kept), _) | (_, Ok(Keeping::Kept)) => Keeping::Kept,
        _ => Keeping::NotKept,
    }
}

// Writes the frame of a packet to the start of a buffer, if the packet is good and new and the frame is no longer than the buffer.
fn take_frame(packet: &[u8], last: Option<TransportNumber>, buf: &mut [u8]) -> Option<Taken>
    ensures value { result ≡ taken_of (gives (length buf.old) last packet.now) }
    ensures buffer { buf.new ≡ written buf.old (gives (length buf.old) last packet.now) }
{
    let Packet { number, frame } = Packet::read(packet).ok()?;
    let len = frame.len();
    if len > buf.len() || !is_newer(last, number) {
        return None;
    }
    buf[..len].copy_from_slice(frame);
    Some(Taken { number, len })
}

// Asks a carrier for a packet, and takes its frame.
fn fetch_frame<C: Carrier>(
    carrier: &mut C,
    at: Role,
    last: Option<TransportNumber>,
    buf: &mut [u8],
) -> Option<Taken>
    ensures { Asked (λ b a b'. FetchRules (C.meaning carrier.old) (C.meaning carrier.new) at b b' a × C.fetching carrier.old at b a b' carrier.new) (length buf.old) last buf.old buf.new result }
{
    let mut memory = [0u8; GREATEST_LENGTH];
    match carrier.fetch(at, &mut memory) {
        Ok(Some(n)) => take_frame(&memory[..n], last, buf),
        Ok(None) | Err(_) => None,
    }
}

// Two carriers that carry the same frames, so that one may fail.
#[derive(Drop)]
pub struct RedundantPair<N, R> {
    normal: N,
    redundant: R,
    counters: Sides<Numbers>,
}

impl<N: Carrier, R: Carrier> RedundantPair<N, R> {
    // A pair over two carriers, of which no packet was put or handed out yet.
    pub fn new(normal: N, redundant: R) -> RedundantPair<N, R>
        ensures carriers { (result.normal ≡ normal) × (result.redundant ≡ redundant) }
        ensures counters { (side : Role) → (next_number result.counters side ≡ 0) × (last_number result.counters side ≡ None) }
    {
        RedundantPair {
            normal,
            redundant,
            counters: Sides {
                initiator: Numbers::new(),
                responder: Numbers::new(),
            },
        }
    }

    // The smaller of the two largest lengths, less what a packet adds to a frame.
    fn largest(&self) -> usize
        ensures { result ≡ pair_largest (N.Carrier.meaning self.now.normal).largest (R.Carrier.meaning self.now.redundant).largest }
    {
        self.normal
            .max_len()
            .min(self.redundant.max_len())
            .saturating_sub(PACKET_OVERHEAD)
    }

    // Puts a frame on both carriers, in packets of the side's next number.
    fn put_both(&mut self, from: Role, frame: &[u8]) -> Keeping
        requires { length frame.now + packet_overhead ≤ greatest_length }
        ensures both { BothPut (λ x a. PutRules (N.Carrier.meaning self.old.normal) (N.Carrier.meaning self.new.normal) from x a × N.Carrier.putting self.old.normal from x a self.new.normal) (λ x a. PutRules (R.Carrier.meaning self.old.redundant) (R.Carrier.meaning self.new.redundant) from x a × R.Carrier.putting self.old.redundant from x a self.new.redundant) (numbered self.old.counters from frame.now) result }
        ensures counters { self.new.counters ≡ advanced self.old.counters from }
        ensures counted { next_number self.old.counters from < 65536 }
    {
        let number = self.counters.at_mut(from).advance();
        let packet = Packet { number, frame };
        let first = put_packet(&mut self.normal, from, packet, Cable::Normal);
        let second = put_packet(&mut self.redundant, from, packet, Cable::Redundant);
        either(first, second)
    }

    // Takes a frame from the normal carrier or, if that gave no good new packet, from the redundant one.
    fn fetch_either(
        &mut self,
        at: Role,
        last: Option<TransportNumber>,
        buf: &mut [u8],
    ) -> Option<Taken>
        ensures asked { AskedInTurn (self.new.redundant ≡ self.old.redundant) (λ b a b'. FetchRules (N.Carrier.meaning self.old.normal) (N.Carrier.meaning self.new.normal) at b b' a × N.Carrier.fetching self.old.normal at b a b' self.new.normal) (λ b a b'. FetchRules (R.Carrier.meaning self.old.redundant) (R.Carrier.meaning self.new.redundant) at b b' a × R.Carrier.fetching self.old.redundant at b a b' self.new.redundant) last buf.old buf.new result }
        ensures counters { self.new.counters ≡ self.old.counters }
    {
        // No `or_else`: where its closure is not called, no proof has it that the redundant carrier is the same.
        match fetch_frame(&mut self.normal, at, last, buf) {
            None => fetch_frame(&mut self.redundant, at, last, buf),
            taken @ Some(_) => taken,
        }
    }
}

impl<N: Carrier, R: Carrier> Carrier for RedundantPair<N, R> {
    ghost meaning = { λ p. pair_meaning (N.Carrier.meaning p.normal) (R.Carrier.meaning p.redundant) };

    ghost putting = { λ p from s r p'. PairPut (pair_largest (N.Carrier.meaning p.normal).largest (R.Carrier.meaning p.redundant).largest) (p' ≡ p) (λ x a. N.Carrier.putting p.normal from x a p'.normal) (λ x a. R.Carrier.putting p.redundant from x a p'.redundant) p.counters p'.counters from s r };

    ghost fetching = { λ p at buf r buf' p'. PairFetch (pair_largest (N.Carrier.meaning p.normal).largest (R.Carrier.meaning p.redundant).largest) (p' ≡ p) (p'.redundant ≡ p.redundant) (λ b a b'. N.Carrier.fetching p.normal at b a b' p'.normal) (λ b a b'. R.Carrier.fetching p.redundant at b a b' p'.redundant) p.counters p'.counters at buf buf' r };

    ghost limit = { Prim.search rules };

    fn max_len(&self) -> usize {
        self.largest()
    }

    fn put(&mut self, from: Role, s: &[u8]) -> Result<Keeping, Refusal> {
        if s.len() > self.largest() {
            return Err(Refusal::StringTooLong);
        }
        Ok(self.put_both(from, s))
    }

    fn fetch(&mut self, at: Role, buf: &mut [u8]) -> Result<Option<usize>, Refusal> {
        let most = self.largest();
        if buf.len() < most {
            return Err(Refusal::BufferTooShort);
        }
        let last = self.counters.at(at).last;
        // No `map`, since its closure would change the counters, as above.
        let Some(Taken { number, len }) = self.fetch_either(at, last, &mut buf[..most]) else {
            return Ok(None);
        };
        self.counters.at_mut(at).note(number);
        Ok(Some(len))
    }
}
