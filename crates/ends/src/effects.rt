// What each rule does to an end, and the frame that it puts.
ghost use Rattle.std.specs.Prelude.{◌≡◌, ◌+◌, ◌<◌, ◌≤◌, ◌==◌, true, cond, length, None, Some};
ghost use Rattle.terms.specs.Buffers.{overlay};
ghost use Rattle.codec.specs.Frames.{frame_value, bytes_of, sized};
ghost use Rattle.codec.specs.Sealing.{sealed};
ghost use Rattle.codec.specs.Telegrams.{telegram_value, telegram_bytes, content_bytes};
ghost use Rattle.ends.specs.Ends.{end_value};
ghost use Rattle.states.specs.States.{in_up};
ghost use Rattle.ends.specs.Ways.{greatest};
ghost use Rattle.ends.specs.Effects.{after_tick, after_fetch, after_first, in_state, number, one_more, risen, released, restarted, started, taken_up, words_by, Numbered, Room};

use super::end::End;
use super::ways::{Exchange, FetchWay, TickWay};
use safety::word::SafetyWord;
use states::reason::{Reason, Release};
use states::state::{State, Words};
use terms::counters::{ExecutionCycle, SequenceNumber, Ticks};
use terms::role::Role;

impl End {
    fn rise(&mut self)
        requires { self.old.ec.0 < greatest }
        ensures { end_value self.new ≡ risen (end_value self.old) }
    {
        self.ec = ExecutionCycle(self.ec.0 + 1);
        self.count = Ticks(self.count.0 + 1);
    }

    pub(crate) fn release(&mut self, reason: Reason)
        ensures { end_value self.new ≡ released (end_value self.old) reason }
    {
        self.state = State::Out(Release::Own(reason));
    }

    // Another state, with the count from 0.
    fn restart(&mut self, state: State)
        ensures { end_value self.new ≡ restarted (end_value self.old) state }
    {
        self.count = Ticks(0);
        self.state = state;
    }

    // The words of a connection: the far end's session number, and this end's own.
    pub(crate) fn words(&self, theirs: u64, mine: u64) -> Words
        ensures { result ≡ words_by (end_value self.now).values theirs mine }
    {
        let v = self.params.values();
        Words {
            read: SafetyWord::of(v.own, theirs),
            write: SafetyWord::of(v.far, mine),
        }
    }
}

impl End {
    // The end after a tick.
    pub(crate) fn follow_tick(&mut self, way: TickWay)
        requires { Room (end_value self.old) way }
        ensures { end_value self.new ≡ after_tick (end_value self.old) way }
    {
        match way {
            TickWay::UsedUp => self.release(Reason::CounterUsedUp),
            TickWay::Abandons => {
                self.rise();
                self.release(Reason::SetupTimeout);
            }
            TickWay::Releases(reason) => {
                self.rise();
                self.release(reason);
            }
            TickWay::Silent => self.rise(),
            TickWay::Sends { .. } => {
                self.rise();
                self.number_on();
            }
        }
    }

    // One data frame more was put.
    fn number_on(&mut self)
        requires { Numbered self.old.state }
        ensures { end_value self.new ≡ in_state (end_value self.old) (one_more self.old.state) }
    {
        if let State::Up {
            words,
            sent,
            last,
            synced,
        } = self.state
        {
            self.state = State::Up {
                words,
                sent: SequenceNumber(sent.0 + 1),
                last,
                synced,
            };
        }
    }

    // AM or AM+ACK or AM+REQ is accepted in up.
    fn take_up(&mut self, kind: Exchange, sn: SequenceNumber, ec: ExecutionCycle)
        ensures { end_value self.new ≡ in_up (λ words sent last synced. taken_up (end_value self.old) words sent synced sn ec kind) (end_value self.old) self.old.state }
    {
        let State::Up {
            words,
            sent,
            synced,
            ..
        } = self.state
        else {
            return;
        };
        match kind {
            Exchange::Am => {
                self.state = State::Up {
                    words,
                    sent,
                    last: sn,
                    synced,
                };
            }
            Exchange::Req => match next(sent) {
                None => self.release(Reason::CounterUsedUp),
                Some(sent) => {
                    self.state = State::Up {
                        words,
                        sent,
                        last: sn,
                        synced,
                    };
                }
            },
            Exchange::Ack => self.restart(State::Up {
                words,
                sent,
                last: sn,
                synced: ec,
            }),
        }
    }

    // The end after a fetch.
    pub(crate) fn follow_fetch(&mut self, way: FetchWay)
        ensures { end_value self.new ≡ after_fetch (end_value self.old) way }
    {
        match (way, self.state) {
            (FetchWay::LeftByFar(codes), _) => self.state = State::Out(Release::Far(codes)),
            (FetchWay::Releases(reason), _) => self.release(reason),
            (FetchWay::AnswersAu1 { rb }, State::Listen { ra }) => self.state = State::WaitAu3 {
                ra,
                rb,
            },
            (FetchWay::AnswersAu2 { ra }, State::WaitAu2 { rb, rc }) => self.state = State::WaitAr {
                ra,
                rb,
                rc,
            },
            (FetchWay::AnswersAu3 { rc }, State::WaitAu3 { ra, .. }) => {
                let words = self.words(rc, ra);
                self.state = State::WaitEc { words };
            }
            (FetchWay::AnswersAr, State::WaitAr { ra, rc, .. }) => {
                let words = self.words(ra, rc);
                self.restart(State::WaitEc { words });
            }
            (FetchWay::Starts { sn, ec }, State::WaitEc { words }) => self.start(words, sn, ec),
            (FetchWay::Takes { kind, sn, ec }, State::WaitFirst { words, .. }) => self.restart(
                State::Up {
                    words,
                    sent: first_sent(kind),
                    last: sn,
                    synced: ec,
                },
            ),
            (FetchWay::Takes { kind, sn, ec }, _) => self.take_up(kind, sn, ec),
            _ => {}
        }
    }

    // ECStart brings the initiator up; the responder has put its own.
    fn start(&mut self, words: Words, sn: SequenceNumber, ec: ExecutionCycle)
        ensures { end_value self.new ≡ restarted (end_value self.old) (started self.old.role words sn ec) }
    {
        match self.role {
            Role::Initiator => self.restart(State::Up {
                words,
                sent: SequenceNumber(0),
                last: sn,
                synced: ec,
            }),
            Role::Responder => self.restart(State::WaitFirst {
                words,
                last: sn,
                synced: ec,
            }),
        }
    }
}

// The number after this one, if there is any.
pub(crate) fn next(sn: SequenceNumber) -> Option<SequenceNumber>
    ensures { result ≡ cond (sn.0 == greatest) None (Some (number (sn.0 + 1))) }
{
    sn.0.checked_add(1).map(SequenceNumber)
}

// The number of the last data frame that a responder has put when it comes up.
fn first_sent(kind: Exchange) -> SequenceNumber
    ensures { result.0 ≡ after_first kind }
{
    match kind {
        Exchange::Req => SequenceNumber(1),
        _ => SequenceNumber(0),
    }
}
