// Opening an end: it takes session numbers by move, and hands out a token that only a stop takes back.
ghost use Rattle.std.specs.Prelude.{◌≡◌};
ghost use Rattle.terms.specs.declared.role.Role.TheVariants.{Initiator, Responder};
ghost use Rattle.states.specs.declared.state.State.TheVariants.{WaitAu2, Listen};
ghost use Rattle.ends.specs.Calls.{opened, opening_put};
ghost use Rattle.ends.specs.Puts.{Lays};
ghost use Rattle.ends.specs.Openings.{handed_back, OpensAs};
ghost use Rattle.ends.specs.Ends.{end_value};
ghost use Rattle.ends.specs.Steps.{OpeningStep};

use super::answer::Answer;
use super::calls::{put, takes_frames};
use super::end::End;
use super::frames::{FrameBuffer, lay_frame};
use super::sealed::{Opening, Sealed};
use super::session::{SessionNumber, SessionNumbers, StopToken};
use carrier::Carrier;
use codec::frame::Frame;
use params::params::Params;
use states::state::State;
use terms::counters::Ticks;
use terms::lengths::LONGEST_FRAME;
use terms::refusal::Refusal;
use terms::role::Role;

// An end just opened, beside the token that its stop takes back.
pub struct Opened {
    pub end: End,
    pub token: StopToken,
    pub answer: Answer,
}

// An opening that was refused hands its session numbers back.
#[derive(Drop)]
pub struct NotOpened<N> {
    pub refusal: Refusal,
    pub numbers: N,
}

// The two numbers of an initiator.
#[derive(Drop)]
pub struct InitiatorNumbers {
    pub rb: SessionNumber,
    pub rc: SessionNumber,
}

// The one number of a responder.
#[derive(Drop)]
pub struct ResponderNumbers {
    pub ra: SessionNumber,
}

impl Sealed for InitiatorNumbers {}

impl Sealed for ResponderNumbers {}

impl SessionNumbers for InitiatorNumbers {
    ghost role = { Initiator };

    ghost first = { λ numbers. WaitAu2 numbers.rb.value numbers.rc.value };

    fn role() -> Role {
        Role::Initiator
    }

    fn first_state(&self, _opening: Opening) -> State {
        State::WaitAu2 {
            rb: self.rb.value,
            rc: self.rc.value,
        }
    }
}

impl SessionNumbers for ResponderNumbers {
    ghost role = { Responder };

    ghost first = { λ numbers. Listen numbers.ra.value };

    fn role() -> Role {
        Role::Responder
    }

    fn first_state(&self, _opening: Opening) -> State {
        State::Listen { ra: self.ra.value }
    }
}

// An end in its first state.
fn first(params: Params, role: Role, state: State) -> End
    ensures { end_value result ≡ opened params.values role state }
{
    let ec = params.values().ec;
    End {
        params,
        role,
        ec,
        count: Ticks(0),
        state,
    }
}

// Lays the frame of an end's first state, if that has one.
fn lay_first(state: State, out: &mut FrameBuffer) -> Option<usize>
    ensures { Lays (opening_put state) out.old out.new result }
{
    match state {
        State::WaitAu2 { rb, .. } => Some(lay_frame(Frame::Au1 { rb }, out)),
        _ => None,
    }
}

// The same as `End::open`, but for the numbers: the caller has them to hand back.
fn try_open<C: Carrier, N: SessionNumbers>(
    params: Params,
    numbers: &N,
    carrier: &mut C,
    out: &mut [u8],
) -> Result<Opened, Refusal>
    ensures rules { OpensAs params.values numbers.now N.role (N.first numbers.now) (C.meaning carrier.old) (C.meaning carrier.new) out.old out.new (handed_back numbers.now result) }
    ensures exact { OpeningStep C.putting carrier.old carrier.new N.role (N.first numbers.now) (C.meaning carrier.old).largest out.old }
{
    takes_frames(carrier)?;
    let room = out
        .first_chunk_mut::<LONGEST_FRAME>()
        .ok_or(Refusal::BufferTooShort)?;
    let state = numbers.first_state(Opening { begins: () });
    let end = first(params, N::role(), state);
    let laid = lay_first(end.state, room);
    put(carrier, end.role, laid, room);
    let answer = Answer {
        put: laid,
        ..end.idle()
    };
    Ok(Opened {
        end,
        token: StopToken { spent: () },
        answer,
    })
}

impl End {
    // Opens an end of the party whose numbers these are, which puts the frame of its first state, if that has one.
    pub fn open<C: Carrier, N: SessionNumbers>(
        params: Params,
        numbers: N,
        carrier: &mut C,
        out: &mut [u8],
    ) -> Result<Opened, NotOpened<N>>
        ensures rules { OpensAs params.values numbers N.role (N.first numbers) (C.meaning carrier.old) (C.meaning carrier.new) out.old out.new result }
        ensures exact { OpeningStep C.putting carrier.old carrier.new N.role (N.first numbers) (C.meaning carrier.old).largest out.old }
    {
        try_open(params, &numbers, carrier, out).map_err(|refusal| NotOpened { refusal, numbers })
    }
}
