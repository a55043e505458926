// A wire that hands out each string once, in the order in which they were put.
ghost use Rattle.std.specs.Prelude.{◌≡◌, IfOk};
ghost use Rattle.carrier.specs.Wires.{wire_meaning, Fresh, WirePut, FifoFetch};
ghost use Rattle.std.proofs.Common.{rules};

use crate::choice::OLDEST;
use crate::store::Store;
use crate::{Carrier, GREATEST_LENGTH, Keeping};
use std::alloc::{AllocError, Global};
use terms::refusal::Refusal;
use terms::role::Role;

#[derive(Drop)]
pub struct FifoWire {
    store: Store,
}

impl FifoWire {
    // An empty wire with so many bytes of memory for what waits for either side.
    pub fn new(heap: Global, initiator: usize, responder: usize) -> Result<FifoWire, AllocError>
        ensures { IfOk result (λ w. Fresh w.store initiator responder) }
    {
        Ok(FifoWire {
            store: Store::new(heap, initiator, responder)?,
        })
    }
}

impl Carrier for FifoWire {
    ghost meaning = { λ w. wire_meaning w.store };

    ghost putting = { λ w from s r w'. WirePut w.store w'.store from s r };

    ghost fetching = { λ w at buf r buf' w'. FifoFetch w.store w'.store at buf buf' r };

    ghost limit = { Prim.search rules };

    fn max_len(&self) -> usize {
        GREATEST_LENGTH
    }

    fn put(&mut self, from: Role, s: &[u8]) -> Result<Keeping, Refusal> {
        self.store.put(from, s)
    }

    fn fetch(&mut self, at: Role, buf: &mut [u8]) -> Result<Option<usize>, Refusal> {
        self.store.fetch(at, OLDEST, buf)
    }
}
