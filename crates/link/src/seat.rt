// An end on its side of a carrier, beside its stop token.
ghost use Rattle.std.specs.Prelude.{◌≡◌, true, length};
ghost use Rattle.ends.specs.Ends.{end_value};
ghost use Rattle.link.specs.Seats.{seat_value, OpensSeat, Acts, StopActs};
ghost use Rattle.link.specs.Tells.{LetGo};

use carrier::Carrier;
use ends::answer::Answer;
use ends::buffers::Buffers;
use ends::end::End;
use ends::opening::Opened;
use ends::session::{SessionNumbers, StopToken};
use params::call::Action;
use params::params::Params;
use terms::refusal::Refusal;

// The token is there until the end is stopped.
pub(crate) struct Seat {
    pub(crate) end: End,
    pub(crate) token: Option<StopToken>,
}

impl Seat {
    fn new(opened: Opened) -> Seat
        ensures { seat_value result ≡ record { end = end_value opened.end; held = true } }
    {
        let Opened {
            end,
            token,
            answer: _,
        } = opened;
        Seat {
            end,
            token: Some(token),
        }
    }

    // An end of the party whose numbers these are.
    pub(crate) fn open<C: Carrier, N: SessionNumbers>(
        params: Params,
        numbers: N,
        carrier: &mut C,
        out: &mut [u8],
    ) -> Result<Seat, Refusal>
        ensures { OpensSeat params.values N.role (N.first numbers) (C.meaning carrier.old) (C.meaning carrier.new) out.old out.new result }
    {
        End::open(params, numbers, carrier, out)
            .map(Seat::new)
            .map_err(|closed| closed.refusal)
    }

    // A script's stop: a second one is refused.
    fn stop<C: Carrier>(&mut self, carrier: &mut C) -> Answer
        ensures { StopActs (seat_value self.old) (seat_value self.new) (C.meaning carrier.old) (C.meaning carrier.new) result }
    {
        match self.token.take() {
            Some(token) => self.end.stop(carrier, token),
            None => Answer {
                refused: Some(Refusal::EndIsOut),
                ..self.end.idle()
            },
        }
    }

    // One call of a script.
    pub(crate) fn act<C: Carrier>(
        &mut self,
        carrier: &mut C,
        action: &Action<Vec<u8>>,
        buffers: &mut Buffers,
    ) -> Answer
        ensures acts { Acts action.now (seat_value self.old) (seat_value self.new) (C.meaning carrier.old) (C.meaning carrier.new) buffers.old.fetched buffers.new.fetched buffers.old.out buffers.new.out result }
        ensures lasting { length buffers.new.fetched ≡ length buffers.old.fetched }
    {
        match action {
            Action::Tick(message) => self.end.tick(carrier, message.as_slice(), &mut buffers.out),
            Action::Fetch => self
                .end
                .fetch(carrier, &mut buffers.fetched, &mut buffers.out),
            Action::Stop => self.stop(carrier),
        }
    }

    // Stops the end unless that has been done.
    pub(crate) fn finish<C: Carrier>(self, carrier: &mut C)
        ensures { LetGo (seat_value self) (C.meaning carrier.old) (C.meaning carrier.new) }
    {
        let Seat { mut end, token } = self;
        if let Some(token) = token {
            let _ = end.stop(carrier, token);
        }
    }
}
