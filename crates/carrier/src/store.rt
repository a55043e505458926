// What both wires are made of: a queue for either side.
ghost use Rattle.std.specs.Prelude.{IfOk};
ghost use Rattle.carrier.specs.Rules.{PutRules, FetchRules};
ghost use Rattle.carrier.specs.Wires.{strings_at, wire_meaning, place_of, Fresh, WirePut, WireFetch};

use crate::Keeping;
use crate::choice::Choice;
use crate::queue::Queue;
use std::alloc::{AllocError, Global};
use terms::refusal::Refusal;
use terms::role::Role;
use terms::sides::Sides;

// The strings that wait for either side, each side's in a memory of its own.
#[derive(Drop)]
pub struct Store {
    queues: Sides<Queue>,
}

impl Store {
    // An empty store with so many bytes of memory for what waits for either side.
    pub(crate) fn new(heap: Global, initiator: usize, responder: usize) -> Result<Store, AllocError>
        ensures { IfOk result (λ t. Fresh t initiator responder) }
    {
        Ok(Store {
            queues: Sides {
                initiator: Queue::new(vec![in heap; 0; initiator]?),
                responder: Queue::new(vec![in heap; 0; responder]?),
            },
        })
    }

    // Keeps a string for the far side, if the free memory there holds its bytes and two more.
    pub(crate) fn put(&mut self, from: Role, s: &[u8]) -> Result<Keeping, Refusal>
        ensures rules { PutRules (wire_meaning self.old) (wire_meaning self.new) from s.now result }
        ensures exact { WirePut self.old self.new from s.now result }
    {
        self.queues.at_mut(from.far()).put(s)
    }

    // Hands out the string that a choice names, if there is one, and lets go of it unless it stays.
    pub(crate) fn fetch(
        &mut self,
        at: Role,
        choice: Choice,
        buf: &mut [u8],
    ) -> Result<Option<usize>, Refusal>
        ensures rules { FetchRules (wire_meaning self.old) (wire_meaning self.new) at buf.old buf.new result }
        ensures exact { WireFetch self.old self.new at (place_of (strings_at self.old at) choice.number) choice.stays buf.old buf.new result }
    {
        self.queues.at_mut(at).fetch(choice, buf)
    }
}
