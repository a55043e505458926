// Runs of one link: both ends opened on a carrier, calls on them one after another, and in the end both stopped.
ghost use Rattle.std.specs.Prelude.{◌≡◌, length, IfOk};
ghost use Rattle.link.specs.Law.{LawOfTheLink};
ghost use Rattle.link.specs.Runs.{at_place};
ghost use Rattle.link.specs.Seats.{OpensSeats, Steps, Plays, Within, link_value};
ghost use Rattle.link.specs.Tells.{Closed, Tells};

use crate::seat::Seat;
use carrier::Carrier;
use ends::answer::{Answer, Place};
use ends::buffers::Buffers;
use ends::opening::{InitiatorNumbers, ResponderNumbers};
use ends::session::SessionNumber;
use params::call::Call;
use params::sheet::Sheet;
use std::alloc::{AllocError, Global};
use terms::failure::Failure;
use terms::lengths::LONGEST_FRAME;
use terms::refusal::Refusal;
use terms::sides::Sides;

// The session numbers of a link: the initiator's are Rb and Rc, the responder's is Ra.
#[derive(Drop)]
pub struct Numbers {
    pub ra: SessionNumber,
    pub rb: SessionNumber,
    pub rc: SessionNumber,
}

// What a call answered, and the bytes that it delivered.
#[derive(Drop)]
pub struct Line {
    pub answer: Answer,
    pub got: Vec<u8>,
}

// Why there are no lines: the carrier does not take the longest frame, so no end was opened on it, or no memory was found to keep
// them in.
pub type RunError = Failure<Refusal>;

// The two ends of a link.
struct Seats(Sides<Seat>);

// The bytes at the place that an answer gives.
fn copied(heap: Global, buf: &[u8], place: Option<Place>) -> Result<Vec<u8>, AllocError>
    requires { Within (length buf.now) place }
    ensures { IfOk result (λ v. v.items ≡ at_place buf.now place) }
{
    match place {
        Some(Place { from, to }) => Vec::from_slice(heap, &buf[from..to]),
        None => Ok(Vec::new(heap)),
    }
}

impl Seats {
    // Opens the initiator, then the responder.
    fn open<C: Carrier>(carrier: &mut C, sheet: &Sheet, numbers: Numbers) -> Result<Seats, Refusal>
        ensures { OpensSeats sheet.now numbers (C.meaning carrier.old) (C.meaning carrier.new) result }
    {
        let Numbers { ra, rb, rc } = numbers;
        let mut out = [0u8; LONGEST_FRAME];
        let initiator = Seat::open(
            sheet.initiator,
            InitiatorNumbers { rb, rc },
            carrier,
            &mut out,
        )?;
        // a refusal is of the carrier or the buffer, and the first opening had the same two
        let responder = Seat::open(
            sheet.responder,
            ResponderNumbers { ra },
            carrier,
            &mut out,
        ).unwrap();
        Ok(Seats(Sides {
            initiator,
            responder,
        }))
    }

    // One call.
    fn step<C: Carrier>(
        &mut self,
        carrier: &mut C,
        call: &Call<Vec<u8>>,
        buffers: &mut Buffers,
    ) -> Answer
        ensures { Steps call.now (link_value (C.meaning carrier.old) self.old) (link_value (C.meaning carrier.new) self.new) buffers.new.fetched result }
    {
        self.0.at_mut(call.end).act(carrier, &call.action, buffers)
    }

    // The calls one after another, a line for each.
    fn play<C: Carrier>(
        &mut self,
        heap: Global,
        carrier: &mut C,
        calls: &[Call<Vec<u8>>],
    ) -> Result<Vec<Line>, AllocError>
        ensures { Plays (link_value (C.meaning carrier.old) self.old) (link_value (C.meaning carrier.new) self.new) calls.now result }
    {
        let mut buffers = Buffers::new();
        let mut lines = Vec::new(heap);
        for call in calls {
            let answer = self.step(carrier, call, &mut buffers);
            let got = copied(heap, &buffers.fetched, answer.delivered)?;
            lines.push(Line { answer, got })?;
        }
        Ok(lines)
    }

    // Stops the ends that were not stopped, the initiator first.
    fn finish<C: Carrier>(self, carrier: &mut C)
        ensures { Closed (link_value (C.meaning carrier.old) self) (C.meaning carrier.new) }
    {
        let Seats(seats) = self;
        let Sides {
            initiator,
            responder,
        } = seats;
        initiator.finish(carrier);
        responder.finish(carrier);
    }
}

// Opens a link on the carrier, makes the calls in order, and stops what was not stopped.
pub fn run<C: Carrier>(
    heap: Global,
    carrier: &mut C,
    sheet: &Sheet,
    numbers: Numbers,
    calls: &[Call<Vec<u8>>],
) -> Result<Vec<Line>, RunError>
    ensures tells { Tells sheet.now numbers (C.meaning carrier.old) (C.meaning carrier.new) calls.now result }
    ensures law { LawOfTheLink }
{
    let mut seats = Seats::open(carrier, sheet, numbers)?;
    let lines = seats.play(heap, carrier, calls);
    seats.finish(carrier);
    Ok(lines?)
}
