// Steady work, to be timed. Of what it answers only bounds are proved.
ghost use Rattle.std.specs.Prelude.{◌*◌, ◌≤◌, IfOk, pos, negsuc, ◌≤ℤ◌};

use crate::NO_MEMORY;
use carrier::fifo::FifoWire;
use carrier::{Carrier, GREATEST_LENGTH};
use ends::buffers::Buffers;
use ends::end::End;
use ends::opening::{InitiatorNumbers, Opened, ResponderNumbers};
use ends::session::{SessionNumber, SessionNumbers};
use params::params::Params;
use params::sheet::Sheet;
use params::values::{Milliseconds, Values};
use rehearsal::rehearsing::WIRE;
use std::alloc::{AllocError, Global};
use terms::counters::{ExecutionCycle, Ticks};
use terms::identifier::Identifier;
use terms::lengths::LONGEST_MESSAGE;
use terms::role::Role;
use terms::sides::Sides;

// The initiator's set: the widest limits, so that a link that is served stays up, and identifiers that differ just enough.
const VALUES: Values = Values {
    own: Identifier {
        first: 0x3F,
        second: 0x3F,
    },
    far: Identifier {
        first: 0,
        second: 0,
    },
    version: 1,
    period: Milliseconds(100),
    window: 1_000,
    mmin: -1_000,
    mmax: 1_000,
    ask: Ticks(10_000),
    wait: Ticks(1_000),
    setup: Ticks(10_000),
    longest: LONGEST_MESSAGE as u16,
    ec: ExecutionCycle(0),
};

// The same set for both ends, but for the identifiers.
fn sheet() -> Sheet {
    let across = Values {
        own: VALUES.far,
        far: VALUES.own,
        ..VALUES
    };
    Sides {
        initiator: Params::new(VALUES).unwrap(),
        responder: Params::new(across).unwrap(),
    }
}

// A wire, and the buffers of those who use it.
#[derive(Drop)]
struct Desk {
    wire: FifoWire,
    buffers: Buffers,
}

impl Desk {
    // A desk whose wire has so many bytes of memory for what waits for either side.
    fn new(heap: Global, initiator: usize, responder: usize) -> Result<Desk, AllocError> {
        Ok(Desk {
            wire: FifoWire::new(heap, initiator, responder)?,
            buffers: Buffers::new(),
        })
    }

    fn open<N: SessionNumbers>(&mut self, params: Params, numbers: N) -> Opened {
        End::open(params, numbers, &mut self.wire, &mut self.buffers.out).unwrap()
    }

    fn stop(&mut self, opened: Opened) {
        let Opened {
            mut end,
            token,
            answer: _,
        } = opened;
        let _ = end.stop(&mut self.wire, token);
    }

    fn tick(&mut self, end: &mut End, message: &[u8]) {
        let _ = end.tick(&mut self.wire, message, &mut self.buffers.out);
    }

    // One fetch: how many messages it delivered.
    fn fetch(&mut self, end: &mut End) -> u64
        ensures { result ≤ 1 }
    {
        let answer = end.fetch(
            &mut self.wire,
            &mut self.buffers.fetched,
            &mut self.buffers.out,
        );
        u64::from(answer.delivered.is_some())
    }

    // Fetches until nothing comes: a round brings an end its far end's frame and at most one answer.
    fn fetches(&mut self, end: &mut End) -> u64
        ensures { result ≤ 3 }
    {
        self.fetch(end) + self.fetch(end) + self.fetch(end)
    }

    // Puts one string and fetches one; says whether one came.
    fn turn(&mut self, string: &[u8]) -> bool {
        let _ = self.wire.put(Role::Initiator, string);
        matches!(
            self.wire.fetch(Role::Responder, &mut self.buffers.fetched),
            Ok(Some(_))
        )
    }
}

// Both ends on a desk, each beside the token that its stop takes back.
struct Served {
    desk: Desk,
    ends: Sides<Opened>,
}

impl Served {
    // Opens both, the initiator first.
    fn new(mut desk: Desk) -> Served {
        let sheet = sheet();
        let numbers = InitiatorNumbers {
            rb: SessionNumber::new(1),
            rc: SessionNumber::new(2),
        };
        let initiator = desk.open(sheet.initiator, numbers);
        let numbers = ResponderNumbers {
            ra: SessionNumber::new(3),
        };
        let responder = desk.open(sheet.responder, numbers);
        Served {
            desk,
            ends: Sides {
                initiator,
                responder,
            },
        }
    }

    // Three fetches each, one after another: after the opening, both are up.
    fn come_up(&mut self) {
        for _ in 0..3 {
            let _ = self.desk.fetch(&mut self.ends.responder.end);
            let _ = self.desk.fetch(&mut self.ends.initiator.end);
        }
    }

    // Both tick, the initiator with the message, and both fetch: how many messages the responder was delivered.
    fn round(&mut self, message: &[u8]) -> u64
        ensures { result ≤ 3 }
    {
        self.desk.tick(&mut self.ends.initiator.end, message);
        self.desk.tick(&mut self.ends.responder.end, &[]);
        let _ = self.desk.fetches(&mut self.ends.initiator.end);
        self.desk.fetches(&mut self.ends.responder.end)
    }

    // So many rounds.
    fn rounds(&mut self, message: &[u8], times: u32) -> u64
        ensures { result ≤ 3 * times }
    {
        let mut delivered = 0;
        for time in 0..times {
            delivered += self.round(message);
        }
        delivered
    }

    // Stops both.
    fn stop(self) {
        let Served { mut desk, ends } = self;
        let Sides {
            initiator,
            responder,
        } = ends;
        desk.stop(initiator);
        desk.stop(responder);
    }
}

// Opens two ends on a new wire, serves them so many rounds with the message, and stops both.
fn serve(heap: Global, message: &[u8], times: u32) -> Result<u64, AllocError>
    ensures { IfOk result (λ delivered. delivered ≤ 3 * times) }
{
    let mut served = Served::new(Desk::new(heap, WIRE, WIRE)?);
    served.come_up();
    let delivered = served.rounds(message, times);
    served.stop();
    Ok(delivered)
}

// A message longer than any that a frame takes is cut to the longest.
#[unsafe(no_mangle)]
pub extern "C" fn falldate_steady_rounds(heap: Global, rounds: u32, size: u32) -> i64
    ensures low { negsuc 0 ≤ℤ result }
    ensures high { result ≤ℤ pos (3 * rounds) }
{
    let message = [0x55u8; LONGEST_MESSAGE];
    let size = (size as usize).min(LONGEST_MESSAGE);
    serve(heap, &message[..size], rounds).map_or(NO_MEMORY, |delivered| delivered as i64)
}

// How many of so many turns fetched a string, where so many strings are held before.
fn turns(desk: &mut Desk, string: &[u8], held: u32, rounds: u32) -> u32
    ensures { result ≤ rounds }
{
    for _ in 0..held {
        let _ = desk.wire.put(Role::Initiator, string);
    }
    let mut came = 0;
    for round in 0..rounds {
        if desk.turn(string) {
            came += 1;
        }
    }
    came
}

// A string longer than any that a carrier takes is cut to the longest.
#[unsafe(no_mangle)]
pub extern "C" fn falldate_wire_rounds(heap: Global, held: u32, size: u32, rounds: u32) -> i64
    ensures low { negsuc 0 ≤ℤ result }
    ensures high { result ≤ℤ pos rounds }
{
    let size = (size as usize).min(GREATEST_LENGTH);
    let room = (held as usize + 1) * (size + 2);
    let string = [0x55u8; GREATEST_LENGTH];
    match Desk::new(heap, 0, room) {
        Ok(mut desk) => i64::from(turns(&mut desk, &string[..size], held, rounds)),
        Err(_) => NO_MEMORY,
    }
}
