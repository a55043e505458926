// A carrier moves byte strings between the initiator's side and the responder's.
// The trait says what a carrier means and which rules it keeps; the modules have carriers that keep them.
#![tactic(auto)]

ghost use Rattle.std.specs.Prelude.{◌≡◌, ℕ, ◌≤◌, List, Option, Result};
ghost use Rattle.terms.specs.declared.refusal.Refusal.{Refusal};
ghost use Rattle.terms.specs.declared.role.Role.{Role};
ghost use Rattle.carrier.specs.declared.Keeping.{Keeping};
ghost use Rattle.carrier.specs.Rules.{Meaning, PutRules, FetchRules, greatest_length};

mod choice;
pub mod cut;
pub mod fault;
pub mod fifo;
mod queue;
mod store;

use terms::refusal::Refusal;
use terms::role::Role;

// No carrier's largest length is above this.
pub const GREATEST_LENGTH: usize = 1100;

// Whether the string of a put may come out at the far side.
#[derive(Clone, Copy, PartialEq, Eq, Debug)]
pub enum Keeping {
    Kept,
    NotKept,
}

pub trait Carrier {
    // The largest length, and for each side the strings that may still come out there.
    ghost meaning: { Self → Meaning };

    // What just this carrier does, which the rules leave open: the carrier before, the call, its answer, and the carrier after.
    ghost putting: { Self → Role → List ℕ → Result Keeping Refusal → Self → Type 0 };

    // The same of a fetch, with the buffer before and after.
    ghost fetching: { Self → Role → List ℕ → Result (Option ℕ) Refusal → List ℕ → Self → Type 0 };

    // The length of the longest string that a put takes.
    fn max_len(&self) -> usize
        ensures { result ≡ (meaning self.now).largest };

    // Hands in a string, which may then come out at the other side.
    fn put(&mut self, from: Role, s: &[u8]) -> Result<Keeping, Refusal>
        ensures rules { PutRules (meaning self.old) (meaning self.new) from s.now result }
        ensures exact { putting self.old from s.now result self.new };

    // Writes a string that comes out at a side to the start of a buffer, and answers its length.
    fn fetch(&mut self, at: Role, buf: &mut [u8]) -> Result<Option<usize>, Refusal>
        ensures rules { FetchRules (meaning self.old) (meaning self.new) at buf.old buf.new result }
        ensures exact { fetching self.old at buf.old result buf.new self.new };

    ghost limit: { (c : Self) → (meaning c).largest ≤ greatest_length };
}
