// What a queue does. Apart from the struct, since these clauses name it.
ghost use Rattle.std.specs.Prelude.{◌≡◌, ℕ, ◌+◌, ◌-◌, ◌*◌, ◌<◌, ◌≤◌, T, List, [], ◌∷◌, ◌++◌, length, take, drop, vec_len, nat_le, slice_index, slice_index_or, IfSome};
ghost use Rattle.std.proofs.Math.Seq.{paste};
ghost use Rattle.std.specs.List.{remove};
ghost use Rattle.carrier.specs.Rules.{greatest_length};
ghost use Rattle.carrier.specs.Packing.{packed, bulk, laid_out};
ghost use Rattle.carrier.specs.Held.{held, contents, size};
ghost use Rattle.carrier.specs.Wires.{fits, put_answer, put_strings, put_memory, place_of, fetch_answer, fetch_strings, fetch_memory, fetch_buffer};

use super::Queue;
use crate::choice::Choice;
use crate::{GREATEST_LENGTH, Keeping};
use std::ops::Range;
use terms::refusal::Refusal;

// So many bytes before each string tell its length.
const PREFIX: usize = 2;

// Writes a string behind its length.
fn store(memory: &mut [u8], at: usize, s: &[u8])
    requires short { length s.now ≤ greatest_length }
    requires room { at + (length s.now + 2) ≤ length memory.old }
    ensures { memory.new ≡ take at memory.old ++ (packed s.now ++ drop (at + (length s.now + 2)) memory.old) }
{
    let start = at + PREFIX;
    memory[at..start].copy_from_slice(&(s.len() as u16).to_be_bytes());
    memory[start..start + s.len()].copy_from_slice(s);
}

// Where the string that lies at a place ends.
fn end_of(memory: &[u8], at: usize) -> usize
    requires { at + 1 < length memory.now }
    ensures { result ≡ at + (slice_index memory.now at * 256 + slice_index memory.now (at + 1) + 2) }
{
    let len = u16::from_be_bytes([memory[at], memory[at + 1]]);
    at + (usize::from(len) + PREFIX)
}

// Moves what lies behind a gap up to the gap's start, and answers how many bytes are in use then.
fn close_gap(memory: &mut [u8], gap: Range<usize>, used: usize) -> usize
    requires { (gap.start ≤ gap.end) × (gap.end ≤ used) × (used ≤ length memory.old) }
    ensures value { result ≡ used - (gap.end - gap.start) }
    ensures after { memory.new ≡ paste memory.old gap.start (drop gap.end memory.old) (used - gap.end) }
{
    memory.copy_within(gap.end..used, gap.start);
    gap.start + (used - gap.end)
}

impl Queue {
    // Nothing is used yet of a memory.
    pub(crate) fn new(memory: Vec<u8>) -> Queue
        ensures held { held result ≡ [] }
        ensures contents { contents result ≡ memory.items }
        ensures size { size result ≡ vec_len memory }
    {
        Queue {
            memory,
            used: 0,
            count: 0,
        }
    }

    // Whether the free memory holds n bytes and the length before them.
    fn has_room(&self, n: usize) -> bool
        requires { n ≤ greatest_length }
        ensures test { result ≡ nat_le (bulk (held self.now) + (n + 2)) (size self.now) }
        ensures room { T result → self.now.used + (n + 2) ≤ size self.now }
    {
        self.memory.len() - self.used >= n + PREFIX
    }

    // Lays a string behind the others.
    fn push(&mut self, s: &[u8])
        requires short { length s.now ≤ greatest_length }
        requires room { self.old.used + (length s.now + 2) ≤ size self.old }
        ensures held { held self.new ≡ held self.old ++ s.now ∷ [] }
        ensures contents { contents self.new ≡ laid_out (held self.old ++ s.now ∷ []) (contents self.old) }
        ensures size { size self.new ≡ size self.old }
    {
        store(&mut self.memory, self.used, s);
        self.used += s.len() + PREFIX;
        self.count += 1;
    }

    // Keeps a string if it is short enough and there is room for it.
    pub(crate) fn put(&mut self, s: &[u8]) -> Result<Keeping, Refusal>
        ensures answer { result ≡ put_answer (size self.old) (held self.old) s.now }
        ensures held { held self.new ≡ put_strings (size self.old) (held self.old) s.now }
        ensures contents { contents self.new ≡ put_memory (size self.old) (held self.old) (contents self.old) s.now }
        ensures size { size self.new ≡ size self.old }
    {
        if s.len() > GREATEST_LENGTH {
            return Err(Refusal::StringTooLong);
        }
        if !self.has_room(s.len()) {
            return Ok(Keeping::NotKept);
        }
        self.push(s);
        Ok(Keeping::Kept)
    }

    // Where the string number k lies, its length before it; the oldest has the number 0.
    fn place(&self, k: usize) -> Range<usize>
        requires { k < length (held self.now) }
        ensures start { result.start ≡ bulk (take k (held self.now)) }
        ensures end { result.end ≡ result.start + (length (slice_index_or (held self.now) k []) + 2) }
        ensures within { result.end ≤ self.now.used }
    {
        let memory = self.memory.as_slice();
        // No `fold`: each call of its closure would owe anew that a start lies within the memory, which the loop keeps as its invariant.
        let mut start = 0;
        for _i in 0..k {
            start = end_of(memory, start);
        }
        start..end_of(memory, start)
    }

    // Copies the string number k to the start of a buffer.
    fn read(&self, k: usize, buf: &mut [u8]) -> usize
        requires within { k < length (held self.now) }
        requires room { greatest_length ≤ length buf.old }
        ensures value { result ≡ length (slice_index_or (held self.now) k []) }
        ensures written { buf.new ≡ slice_index_or (held self.now) k [] ++ drop result buf.old }
    {
        let Range { start, end } = self.place(k);
        let s = &self.memory[start + PREFIX..end];
        buf[..s.len()].copy_from_slice(s);
        s.len()
    }

    // Takes out the string number k, and moves those behind it up.
    fn remove(&mut self, k: usize)
        requires within { k < length (held self.old) }
        ensures held { held self.new ≡ remove (held self.old) k }
        ensures contents { contents self.new ≡ laid_out (remove (held self.old) k) (contents self.old) }
        ensures size { size self.new ≡ size self.old }
    {
        let gap = self.place(k);
        self.used = close_gap(&mut self.memory, gap, self.used);
        self.count -= 1;
    }

    // The number of the string that a choice names, if there is one.
    #[tactic(auto, using(crate::proofs::Packing::length_unpacked))]
    fn chosen(&self, choice: Choice) -> Option<usize>
        ensures value { result ≡ place_of (held self.now) choice.number }
        ensures within { IfSome result (λ k. k < length (held self.now)) }
    {
        let k = choice.number.checked_sub(1)?;
        (k < self.count).then_some(k)
    }

    // Copies the string that a choice names to the start of a buffer, and takes it out unless it stays.
    pub(crate) fn fetch(&mut self, choice: Choice, buf: &mut [u8]) -> Result<Option<usize>, Refusal>
        ensures answer { result ≡ fetch_answer (nat_le greatest_length (length buf.old)) (held self.old) (place_of (held self.old) choice.number) }
        ensures written { buf.new ≡ fetch_buffer (nat_le greatest_length (length buf.old)) buf.old (held self.old) (place_of (held self.old) choice.number) }
        ensures held { held self.new ≡ fetch_strings (nat_le greatest_length (length buf.old)) (held self.old) (place_of (held self.old) choice.number) choice.stays }
        ensures contents { contents self.new ≡ fetch_memory (nat_le greatest_length (length buf.old)) (held self.old) (contents self.old) (place_of (held self.old) choice.number) choice.stays }
        ensures size { size self.new ≡ size self.old }
    {
        if buf.len() < GREATEST_LENGTH {
            return Err(Refusal::BufferTooShort);
        }
        let Some(k) = self.chosen(choice) else {
            return Ok(None);
        };
        let len = self.read(k, buf);
        if !choice.stays {
            self.remove(k);
        }
        Ok(Some(len))
    }
}
