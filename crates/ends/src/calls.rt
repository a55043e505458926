// The calls on an end: tick, fetch, stop.
ghost use Rattle.std.specs.Prelude.{◌≡◌, ◌≤◌, cond, length, Some, None, nat_lt};
ghost use Rattle.std.specs.Result.{result_err};
ghost use Rattle.terms.specs.Numbers.{Bytes};
ghost use Rattle.codec.specs.Frames.{most_data};
ghost use Rattle.ends.specs.Calls.{answering, answer_of, out_refusal, message_refusal, said, Ticks, Fetches, Stops, Puts};
ghost use Rattle.ends.specs.Ends.{end_value};
ghost use Rattle.ends.specs.Steps.{PutStep, TickStep, FetchStep, StopStep};
ghost use Rattle.ends.specs.Ways.{tick_way, fetch_way};
ghost use Rattle.ends.specs.Effects.{after_tick, after_fetch, tick_put, fetch_put, delivers};
ghost use Rattle.ends.specs.Puts.{longest_frame, front, Lays, Fits};

use super::answer::{Answer, Place};
use super::end::End;
use super::frames::FrameBuffer;
use super::session::StopToken;
use super::ways::FetchWay;
use carrier::Carrier;
use states::reason::Reason;
use states::state::State;
use terms::lengths::LONGEST_FRAME;
use terms::refusal::Refusal;
use terms::role::Role;

// Whether the carrier takes every frame: what each call asks first.
pub(crate) fn takes_frames<C: Carrier>(carrier: &C) -> Result<(), Refusal>
    ensures { result_err result ≡ cond (nat_lt (C.meaning carrier.now).largest longest_frame) (Some Refusal.CarrierTooNarrow) None }
{
    if carrier.max_len() < LONGEST_FRAME {
        return Err(Refusal::CarrierTooNarrow);
    }
    Ok(())
}

// Puts what stands at the start of `out`, if anything was laid there.
pub(crate) fn put<C: Carrier>(carrier: &mut C, from: Role, laid: Option<usize>, out: &FrameBuffer)
    requires { Fits laid (length out.now) }
    ensures rules { Puts (C.meaning carrier.old) (C.meaning carrier.new) from (front laid out.now) }
    ensures exact { PutStep C.putting carrier.old carrier.new from (front laid out.now) }
{
    if let Some(n) = laid {
        let _ = carrier.put(from, &out[0..n]);
    }
}

// Where the message of a data frame of `n` bytes stands, if one was accepted and has any: 10 bytes are before it, 8 behind.
fn place(way: FetchWay, n: usize) -> Option<Place>
    ensures { result ≡ delivers way n }
{
    match way {
        FetchWay::Takes { .. } if n > 18 => Some(Place {
            from: 10,
            to: n - 8,
        }),
        _ => None,
    }
}

impl End {
    // The answer by the end's state as it is now, of a call that was not refused and did nothing.
    pub fn idle(&self) -> Answer
        ensures { result ≡ answering (end_value self.now) None None None }
    {
        Answer {
            refused: None,
            status: self.state.status(),
            delivered: None,
            put: None,
        }
    }

    // The answer of a call that was tried; one that was refused has done nothing.
    fn answer_of(&self, tried: Result<Answer, Refusal>) -> Answer
        ensures { result ≡ answer_of (end_value self.now) tried }
    {
        tried.unwrap_or_else(|refused| Answer {
            refused: Some(refused),
            ..self.idle()
        })
    }

    // Whether the end is not out: what a call asks last.
    fn is_running(&self) -> Result<(), Refusal>
        ensures { result_err result ≡ out_refusal self.now.state }
    {
        match self.state {
            State::Out(_) => Err(Refusal::EndIsOut),
            _ => Ok(()),
        }
    }
}

impl End {
    // The message that goes out: one that is too long is left out.
    fn said<'a>(&self, message: &'a [u8]) -> &'a [u8]
        ensures value { result.now ≡ said (end_value self.now).values message.now }
        ensures short { length result.now ≤ most_data }
    {
        if message.len() <= usize::from(self.params.values().longest) {
            message
        } else {
            &[]
        }
    }

    // Why a message is refused though the tick goes on; the end is as it is after the tick. No `Result`: nothing hangs on it but the answer.
    fn message_refusal(&self, len: usize) -> Option<Refusal>
        ensures { result ≡ message_refusal (end_value self.now).values len self.now.state }
    {
        if len > usize::from(self.params.values().longest) {
            return Some(Refusal::MessageTooLong);
        }
        match self.state {
            State::Up { .. } => None,
            _ if len == 0 => None,
            _ => Some(Refusal::EndNotUp),
        }
    }

    // A tick that is not refused: the frame it puts is laid at the start of `out`.
    fn go_on(&mut self, message: &[u8], out: &mut FrameBuffer) -> Option<usize>
        ensures end { end_value self.new ≡ after_tick (end_value self.old) (tick_way (end_value self.old)) }
        ensures laid { Lays (tick_put (end_value self.old) (tick_way (end_value self.old)) (said (end_value self.old).values message.now)) out.old out.new result }
    {
        let way = self.tick_way();
        let laid = self.lay_tick(way, self.said(message), out);
        self.follow_tick(way);
        laid
    }

    fn try_tick<C: Carrier>(
        &mut self,
        carrier: &mut C,
        message: &[u8],
        out: &mut [u8],
    ) -> Result<Answer, Refusal>
        ensures rules { Ticks (end_value self.old) (end_value self.new) (C.meaning carrier.old) (C.meaning carrier.new) message.now out.old out.new (answer_of (end_value self.new) result) }
        ensures exact { TickStep C.putting carrier.old carrier.new (end_value self.old) (C.meaning carrier.old).largest message.now out.old }
    {
        takes_frames(carrier)?;
        let room = out
            .first_chunk_mut::<LONGEST_FRAME>()
            .ok_or(Refusal::BufferTooShort)?;
        self.is_running()?;
        let laid = self.go_on(message, room);
        put(carrier, self.role, laid, room);
        Ok(Answer {
            refused: self.message_refusal(message.len()),
            put: laid,
            ..self.idle()
        })
    }

    // One tick of the end, with a message, which may be empty.
    pub fn tick<C: Carrier>(&mut self, carrier: &mut C, message: &[u8], out: &mut [u8]) -> Answer
        ensures rules { Ticks (end_value self.old) (end_value self.new) (C.meaning carrier.old) (C.meaning carrier.new) message.now out.old out.new result }
        ensures exact { TickStep C.putting carrier.old carrier.new (end_value self.old) (C.meaning carrier.old).largest message.now out.old }
    {
        let tried = self.try_tick(carrier, message, out);
        self.answer_of(tried)
    }
}

impl End {
    // What a fetched string does: the frame it makes the end put is laid at the start of `out`.
    fn take(&mut self, s: &[u8], out: &mut FrameBuffer) -> (Option<Place>, Option<usize>)
        ensures end { end_value self.new ≡ after_fetch (end_value self.old) (fetch_way (end_value self.old) s.now) }
        ensures place { result.0 ≡ delivers (fetch_way (end_value self.old) s.now) (length s.now) }
        ensures laid { Lays (fetch_put (end_value self.old) (fetch_way (end_value self.old) s.now)) out.old out.new result.1 }
        ensures octets { Bytes s.now }
    {
        let way = self.fetch_way(s);
        let laid = self.lay_fetch(way, out);
        self.follow_fetch(way);
        (place(way, s.len()), laid)
    }

    fn try_fetch<C: Carrier>(
        &mut self,
        carrier: &mut C,
        buf: &mut [u8],
        out: &mut [u8],
    ) -> Result<Answer, Refusal>
        ensures rules { Fetches (end_value self.old) (end_value self.new) (C.meaning carrier.old) (C.meaning carrier.new) buf.old buf.new out.old out.new (answer_of (end_value self.new) result) }
        ensures exact { FetchStep C.putting C.fetching carrier.old carrier.new (end_value self.old) (end_value self.new) (C.meaning carrier.old).largest buf.old buf.new out.old out.new (answer_of (end_value self.new) result) }
    {
        takes_frames(carrier)?;
        if buf.len() < carrier.max_len() {
            return Err(Refusal::BufferTooShort);
        }
        let room = out
            .first_chunk_mut::<LONGEST_FRAME>()
            .ok_or(Refusal::BufferTooShort)?;
        self.is_running()?;
        let Some(n) = carrier.fetch(self.role, buf).unwrap() else {
            return Ok(self.idle());
        };
        let (delivered, laid) = self.take(&buf[0..n], room);
        put(carrier, self.role, laid, room);
        Ok(Answer {
            delivered,
            put: laid,
            ..self.idle()
        })
    }

    // Takes what comes out of the carrier, if anything does.
    pub fn fetch<C: Carrier>(&mut self, carrier: &mut C, buf: &mut [u8], out: &mut [u8]) -> Answer
        ensures rules { Fetches (end_value self.old) (end_value self.new) (C.meaning carrier.old) (C.meaning carrier.new) buf.old buf.new out.old out.new result }
        ensures exact { FetchStep C.putting C.fetching carrier.old carrier.new (end_value self.old) (end_value self.new) (C.meaning carrier.old).largest buf.old buf.new out.old out.new result }
    {
        let tried = self.try_fetch(carrier, buf, out);
        self.answer_of(tried)
    }

    // Takes the token back, and releases the end unless it is out.
    pub fn stop<C: Carrier>(&mut self, carrier: &mut C, token: StopToken) -> Answer
        ensures rules { Stops (end_value self.old) (end_value self.new) (C.meaning carrier.old) (C.meaning carrier.new) result }
        ensures exact { StopStep C.putting carrier.old carrier.new (end_value self.old) }
    {
        let StopToken { spent: () } = token;
        if let State::Out(_) = self.state {
            return self.idle();
        }
        let mut out = [0u8; LONGEST_FRAME];
        let laid = Some(self.lay_release(Reason::Stopped, &mut out));
        self.release(Reason::Stopped);
        put(carrier, self.role, laid, &out);
        Answer {
            put: laid,
            ..self.idle()
        }
    }
}
