// The frames that an end puts, laid into its output buffer.
ghost use Rattle.std.specs.Prelude.{◌≡◌, ◌<◌, ◌≤◌, true, length, Some};
ghost use Rattle.codec.specs.Frames.{frame_value, bytes_of, sized, most_data};
ghost use Rattle.terms.specs.Roles.{far};
ghost use Rattle.codec.specs.Sealing.{sealed};
ghost use Rattle.codec.specs.Telegrams.{telegram_bytes, telegram_value, content_bytes, content_value};
ghost use Rattle.ends.specs.Ends.{end_value};
ghost use Rattle.ends.specs.Puts.{longest_frame, Lays};
ghost use Rattle.ends.specs.Ways.{greatest};
ghost use Rattle.ends.specs.Effects.{risen, Room, Numbered, release_frame, start_frame, ack_frame, sent_frame, tick_put, answer_up, fetch_put, put_telegram, put_opening};

use super::effects::next;
use super::end::End;
use super::ways::{Exchange, FetchWay, TickWay};
use codec::frame::Frame;
use codec::frame_type::ReasonCodes;
use codec::seal::seal;
use codec::telegram::{Content, Telegram};
use safety::word::SafetyWord;
use states::reason::Reason;
use states::state::State;
use terms::counters::{ExecutionCycle, SequenceNumber};
use terms::lengths::LONGEST_FRAME;
use terms::role::Role;

// The start of an output buffer, in which each frame finds its place.
pub(crate) type FrameBuffer = [u8; LONGEST_FRAME];

// Lays a frame of the opening, or a release, at the start of `out`.
pub(crate) fn lay_frame(frame: Frame<'_>, out: &mut FrameBuffer) -> usize
    requires { (length (bytes_of (frame_value frame)) ≤ longest_frame) × (sized (frame_value frame) ≡ true) }
    ensures { Lays (Some (bytes_of (frame_value frame.entry))) out.old out.new (Some result) }
{
    frame.write(out).unwrap()
}

impl End {
    pub(crate) fn lay_release(&self, reason: Reason, out: &mut FrameBuffer) -> usize
        ensures { Lays (Some (release_frame (end_value self.now) reason)) out.old out.new (Some result) }
    {
        let release = Frame::Di {
            towards: self.role.far(),
            codes: ReasonCodes::from(reason),
        };
        lay_frame(release, out)
    }

    // A data frame towards the far end, sealed with the word.
    #[tactic(auto, using(crate::proofs::Laying::finds_place))]
    fn lay_data(&self, word: SafetyWord, telegram: Telegram<'_>, out: &mut FrameBuffer) -> usize
        requires { length (content_bytes (content_value telegram.content)) ≤ most_data }
        ensures { Lays (Some (sealed (far self.now.role) (telegram_bytes (telegram_value telegram.entry)) word.0)) out.old out.new (Some result) }
    {
        seal(self.role.far(), telegram, word, out).unwrap()
    }
}

impl End {
    // AM or AM+REQ, which a tick in up puts; it bears the EC that the tick has brought.
    fn lay_sent(&self, asks: bool, message: &[u8], out: &mut FrameBuffer) -> Option<usize>
        requires { (length message.now ≤ most_data) × ((self.now.ec.0 < greatest) × (Numbered self.now.state)) }
        ensures { Lays (sent_frame (risen (end_value self.now)) asks message.now self.now.state) out.old out.new result }
    {
        let State::Up { words, sent, .. } = self.state else {
            return None;
        };
        let telegram = Telegram {
            sn: SequenceNumber(sent.0 + 1),
            ec: ExecutionCycle(self.ec.0 + 1),
            content: if asks {
                Content::AmReq(message)
            } else {
                Content::Am(message)
            },
        };
        Some(self.lay_data(words.write, telegram, out))
    }

    // The frame that a tick puts.
    pub(crate) fn lay_tick(
        &self,
        way: TickWay,
        message: &[u8],
        out: &mut FrameBuffer,
    ) -> Option<usize>
        requires { (length message.now ≤ most_data) × (Room (end_value self.now) way) }
        ensures { Lays (tick_put (end_value self.now) way message.now) out.old out.new result }
    {
        match way {
            TickWay::UsedUp => Some(self.lay_release(Reason::CounterUsedUp, out)),
            TickWay::Abandons => Some(0),
            TickWay::Releases(reason) => Some(self.lay_release(reason, out)),
            TickWay::Silent => None,
            TickWay::Sends { asks } => self.lay_sent(asks, message, out),
        }
    }
}

impl End {
    fn lay_start(&self, word: SafetyWord, out: &mut FrameBuffer) -> usize
        ensures { Lays (Some (start_frame (end_value self.now) word)) out.old out.new (Some result) }
    {
        let v = self.params.values();
        let telegram = Telegram {
            sn: SequenceNumber(0),
            ec: self.ec,
            content: Content::EcStart {
                version: v.version,
                period: v.period.0,
            },
        };
        self.lay_data(word, telegram, out)
    }

    fn lay_ack(&self, word: SafetyWord, sn: SequenceNumber, out: &mut FrameBuffer) -> usize
        ensures { Lays (Some (ack_frame (end_value self.now) word sn.0)) out.old out.new (Some result) }
    {
        let telegram = Telegram {
            sn,
            ec: self.ec,
            content: Content::AmAck(&[]),
        };
        self.lay_data(word, telegram, out)
    }

    // AM+ACK for an AM+REQ that was accepted in up, or the release where no number is left.
    fn lay_answer(
        &self,
        word: SafetyWord,
        sent: SequenceNumber,
        kind: Exchange,
        out: &mut FrameBuffer,
    ) -> Option<usize>
        ensures { Lays (answer_up (end_value self.now) word sent kind) out.old out.new result }
    {
        match kind {
            Exchange::Req => Some(match next(sent) {
                None => self.lay_release(Reason::CounterUsedUp, out),
                Some(sn) => self.lay_ack(word, sn, out),
            }),
            _ => None,
        }
    }

    fn lay_telegram(&self, kind: Exchange, out: &mut FrameBuffer) -> Option<usize>
        ensures { Lays (put_telegram (end_value self.now) kind self.now.state) out.old out.new result }
    {
        match (self.state, kind) {
            (State::WaitFirst { words, .. }, Exchange::Req) => Some(self.lay_ack(
                words.write,
                SequenceNumber(1),
                out,
            )),
            (State::Up { words, sent, .. }, _) => self.lay_answer(words.write, sent, kind, out),
            _ => None,
        }
    }

    // The frame of the opening that a fetch puts.
    fn lay_opening(&self, way: FetchWay, out: &mut FrameBuffer) -> Option<usize>
        ensures { Lays (put_opening (end_value self.now) way) out.old out.new result }
    {
        match (way, self.state) {
            (FetchWay::AnswersAu1 { rb }, State::Listen { ra }) => Some(lay_frame(
                Frame::Au2 { ra_xor_rb: ra ^ rb },
                out,
            )),
            (FetchWay::AnswersAu2 { ra }, State::WaitAu2 { rc, .. }) => Some(lay_frame(
                Frame::Au3 { ra_xor_rc: ra ^ rc },
                out,
            )),
            (FetchWay::AnswersAu3 { .. }, State::WaitAu3 { rb, .. }) => Some(lay_frame(
                Frame::Ar { rb },
                out,
            )),
            _ => None,
        }
    }

    // The frame that a fetch puts.
    pub(crate) fn lay_fetch(&self, way: FetchWay, out: &mut FrameBuffer) -> Option<usize>
        ensures { Lays (fetch_put (end_value self.now) way) out.old out.new result }
    {
        match (way, self.state, self.role) {
            (FetchWay::Releases(reason), _, _) => Some(self.lay_release(reason, out)),
            (FetchWay::AnswersAr, State::WaitAr { ra, rc, .. }, _) => Some(self.lay_start(
                self.words(ra, rc).write,
                out,
            )),
            (FetchWay::Starts { .. }, State::WaitEc { words }, Role::Responder) => Some(
                self.lay_start(words.write, out),
            ),
            (FetchWay::Takes { kind, .. }, _, _) => self.lay_telegram(kind, out),
            _ => self.lay_opening(way, out),
        }
    }
}
