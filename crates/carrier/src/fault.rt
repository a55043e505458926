// A wire that loses, delays, reorders and repeats strings as a list of choices tells it to.
ghost use Rattle.std.specs.Prelude.{◌≡◌, IfOk};
ghost use Rattle.carrier.specs.Wires.{wire_meaning, Fresh};
ghost use Rattle.carrier.specs.Faults.{FaultPut, FaultFetch, to_come};
ghost use Rattle.std.proofs.Common.{rules};

pub use crate::choice::Choice;
use crate::choice::OLDEST;
use crate::store::Store;
use crate::{Carrier, GREATEST_LENGTH, Keeping};
use std::alloc::{AllocError, Global};
use std::collections::VecDeque;
use terms::refusal::Refusal;
use terms::role::Role;

// One choice serves each fetch that is not refused, at either side. With none left it acts as a `FifoWire`.
#[derive(Drop)]
pub struct FaultWire {
    store: Store,
    choices: VecDeque<Choice>,
}

impl FaultWire {
    // An empty wire with so many bytes of memory for what waits for either side, and its choices.
    pub fn new(
        heap: Global,
        initiator: usize,
        responder: usize,
        choices: Vec<Choice>,
    ) -> Result<FaultWire, AllocError>
        ensures { IfOk result (λ w. Fresh w.store initiator responder × (to_come w ≡ choices.items)) }
    {
        Ok(FaultWire {
            store: Store::new(heap, initiator, responder)?,
            choices: VecDeque::from(choices),
        })
    }
}

impl Carrier for FaultWire {
    ghost meaning = { λ w. wire_meaning w.store };

    ghost putting = { λ w from s r w'. FaultPut w w' from s r };

    ghost fetching = { λ w at buf r buf' w'. FaultFetch w w' at buf buf' r };

    ghost limit = { Prim.search rules };

    fn max_len(&self) -> usize {
        GREATEST_LENGTH
    }

    fn put(&mut self, from: Role, s: &[u8]) -> Result<Keeping, Refusal> {
        self.store.put(from, s)
    }

    fn fetch(&mut self, at: Role, buf: &mut [u8]) -> Result<Option<usize>, Refusal> {
        let choice = self.choices.front().copied().unwrap_or(OLDEST);
        let fetched = self.store.fetch(at, choice, buf)?;
        self.choices.pop_front();
        Ok(fetched)
    }
}
