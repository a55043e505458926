// Which rule applies: to a tick by the end's state, to a string by state and arriving frame together.
ghost use Rattle.std.specs.Prelude.{◌≡◌, ◌<◌, ◌≤◌, Bool};
ghost use Rattle.codec.specs.Frames.{frame_value, read_frame};
ghost use Rattle.codec.specs.Sealing.{word_in};
ghost use Rattle.codec.specs.Telegrams.{telegram_value, content_value};
ghost use Rattle.ends.specs.Ends.{end_value};
ghost use Rattle.ends.specs.Effects.{Room, SendsRoom};
ghost use Rattle.ends.specs.Ways.{same_word, limited, up_way, start_limit, risen_way, tick_way, timely, age, numbered, aged, exchange_way, start_way, telegram_way, data_way, frame_way, arrival_way, heard, fetch_way, stray, taken, awaited};

use super::arrival::judge;
use super::end::End;
use super::ways::{Exchange, FetchWay, TickWay};
use codec::frame::Frame;
use codec::frame_type::{FrameType, ReasonCodes};
use codec::seal::bears;
use codec::telegram::{Content, Telegram};
use params::values::Values;
use safety::word::SafetyWord;
use states::reason::Reason;
use states::state::{State, Words};
use terms::counters::{ExecutionCycle, SequenceNumber, Ticks};
use terms::role::Role;

// A way out where the count is above a limit. No closure for the way: it is a small value, made without effect.
fn limit(limit: Ticks, count: u64, way: TickWay) -> TickWay
    ensures value { result ≡ limited limit.0 count way }
    ensures room { (st : State) → SendsRoom st way → SendsRoom st result }
{
    if u64::from(limit.0) < count {
        way
    } else {
        TickWay::Silent
    }
}

impl End {
    // In up: no AM+ACK in time, no number left, or a telegram goes out.
    fn up_way(&self, count: u64, sent: SequenceNumber) -> TickWay
        ensures value { result ≡ up_way (end_value self.now).values count sent }
        ensures room { (words : Words) (last : SequenceNumber) (synced : ExecutionCycle) → SendsRoom (State.Up words sent last synced) result }
    {
        if u64::from(self.params.up_limit().0) < count {
            TickWay::Releases(Reason::AckTimeout)
        } else if sent.0 == u32::MAX {
            TickWay::Releases(Reason::CounterUsedUp)
        } else {
            TickWay::Sends {
                asks: count == u64::from(self.params.values().ask.0),
            }
        }
    }

    // By state, at the count that the tick has brought.
    fn risen_way(&self, count: u64) -> TickWay
        ensures value { result ≡ risen_way (end_value self.now).values self.now.role count self.now.state }
        ensures room { SendsRoom self.now.state result }
    {
        let v = self.params.values();
        match (self.state, self.role) {
            (State::WaitAu2 { .. }, _) => limit(v.setup, count, TickWay::Abandons),
            (State::WaitAr { .. }, _) => limit(
                v.setup,
                count,
                TickWay::Releases(Reason::SetupTimeout),
            ),
            (State::WaitEc { .. }, Role::Initiator) | (State::WaitFirst { .. }, _) => limit(
                v.wait,
                count,
                TickWay::Releases(Reason::FirstTimeout),
            ),
            (State::Up { sent, .. }, _) => self.up_way(count, sent),
            _ => TickWay::Silent,
        }
    }

    // Which rule applies to a tick.
    pub(crate) fn tick_way(&self) -> TickWay
        ensures value { result ≡ tick_way (end_value self.now) }
        ensures room { Room (end_value self.now) result }
    {
        if self.ec.0 == u32::MAX {
            return TickWay::UsedUp;
        }
        self.risen_way(u64::from(self.count.0) + 1)
    }
}

// What a telegram of the data exchange is held against.
#[derive(Clone, Copy)]
struct Expectation {
    values: Values,
    // the number of the last one accepted
    last: SequenceNumber,
    // the EC that the expectation was last set to, and the ticks since
    synced: ExecutionCycle,
    count: Ticks,
    // whether AM+ACK is awaited
    due: bool,
}

impl Expectation {
    // Whether a telegram of this EC is neither too old nor too new.
    fn is_timely(&self, ec: ExecutionCycle) -> bool
        ensures { result ≡ timely self.now.values (age self.now.count.0 self.now.synced ec) }
    {
        let age = i64::from(self.synced.0) + i64::from(self.count.0) - i64::from(ec.0);
        (self.values.mmin..=i64::from(self.values.mmax)).contains(&age)
    }

    // The number of a telegram: old ones are dropped, those beyond the window release.
    // No closure or `Result` for the way of a good one: it is a small value, made without effect.
    fn by_number(&self, sn: SequenceNumber, way: FetchWay) -> FetchWay
        ensures { result ≡ numbered self.now.values self.now.last sn.0 way }
    {
        if sn <= self.last {
            FetchWay::Drops
        } else if u64::from(self.last.0) + u64::from(self.values.window) < u64::from(sn.0) {
            FetchWay::Releases(Reason::BeyondWindow)
        } else {
            way
        }
    }

    // A telegram of the data exchange: its number comes first, then its age.
    fn in_order(&self, telegram: Telegram<'_>, way: FetchWay) -> FetchWay
        ensures { result ≡ numbered self.now.values self.now.last (telegram_value telegram.entry).sn (aged self.now.values self.now.count.0 self.now.synced (telegram_value telegram.entry) way) }
    {
        if self.is_timely(telegram.ec) {
            self.by_number(telegram.sn, way)
        } else {
            self.by_number(telegram.sn, FetchWay::Releases(Reason::WrongAge))
        }
    }

    // In waitfirst and up. AM+ACK has a place only where it is awaited.
    fn by_telegram(&self, telegram: Telegram<'_>) -> FetchWay
        ensures { result ≡ exchange_way self.now.values self.now.count.0 self.now.due self.now.last self.now.synced (telegram_value telegram.entry) (content_value telegram.entry.content) }
    {
        let wrong = FetchWay::Releases(Reason::Malformed);
        match telegram.content {
            Content::EcStart { .. } => self.by_number(telegram.sn, wrong),
            Content::Am(_) => self.in_order(telegram, takes(Exchange::Am, telegram)),
            Content::AmReq(_) => self.in_order(telegram, takes(Exchange::Req, telegram)),
            Content::AmAck(_) if self.due => self.in_order(
                telegram,
                takes(Exchange::Ack, telegram),
            ),
            Content::AmAck(_) => self.in_order(telegram, wrong),
            Content::Other { type_byte, .. } => by_stray(
                type_byte,
                self.by_number(telegram.sn, wrong),
            ),
        }
    }
}

fn takes(kind: Exchange, telegram: Telegram<'_>) -> FetchWay
    ensures { result ≡ taken kind (telegram_value telegram.entry) }
{
    FetchWay::Takes {
        kind,
        sn: telegram.sn,
        ec: telegram.ec,
    }
}

// A type that is none of the four: the other option's, or unknown; a wrong ECStart is judged in its place.
fn by_stray(type_byte: u8, start: FetchWay) -> FetchWay
    ensures { result ≡ stray type_byte start }
{
    match type_byte {
        0x91 => FetchWay::Releases(Reason::OtherOption),
        0x81 => start,
        _ => FetchWay::Releases(Reason::Malformed),
    }
}

// Whether a string is a data frame whose code is right under the word.
fn is_under(word: SafetyWord, s: &[u8]) -> bool
    ensures { result ≡ same_word word (word_in (read_frame s.now)) }
{
    bears(s) == Some(word)
}

// Whether a string is judged at all: in listen all but the type AU1 is dropped unread.
fn is_heard(state: State, s: &[u8]) -> bool
    ensures { result ≡ heard state s.now }
{
    match (state, s) {
        (State::Listen { .. }, []) => false,
        (State::Listen { .. }, [first, ..]) => FrameType::named(*first) == Some(FrameType::Au1),
        _ => true,
    }
}

impl End {
    // In waitec: version, then period.
    fn starting(&self, telegram: Telegram<'_>) -> FetchWay
        ensures { result ≡ start_way (end_value self.now).values (telegram_value telegram.entry) (content_value telegram.entry.content) }
    {
        let v = self.params.values();
        match telegram.content {
            Content::EcStart { version, .. } if version != v.version => FetchWay::Releases(
                Reason::WrongVersion,
            ),
            Content::EcStart { period, .. } if period != v.period.0 => FetchWay::Releases(
                Reason::WrongPeriod,
            ),
            Content::EcStart { .. } => FetchWay::Starts {
                sn: telegram.sn,
                ec: telegram.ec,
            },
            Content::Other { type_byte, .. } => by_stray(
                type_byte,
                FetchWay::Releases(Reason::Malformed),
            ),
            _ => FetchWay::Releases(Reason::Malformed),
        }
    }

    // A telegram under the connection's word, by state.
    fn by_telegram(&self, telegram: Telegram<'_>) -> FetchWay
        ensures { result ≡ telegram_way (end_value self.now).values self.now.count.0 self.now.state (telegram_value telegram.entry) }
    {
        let values = self.params.values();
        let count = self.count;
        let (last, synced, due) = match self.state {
            State::WaitEc { .. } => return self.starting(telegram),
            State::WaitFirst { last, synced, .. } => (last, synced, false),
            State::Up { last, synced, .. } => (last, synced, values.ask <= count),
            _ => return FetchWay::Drops,
        };
        let expectation = Expectation {
            values,
            last,
            synced,
            count,
            due,
        };
        expectation.by_telegram(telegram)
    }

    // A data frame: dropped unless its code is right under the word.
    fn by_data(&self, word: SafetyWord, s: &[u8], telegram: &[u8]) -> FetchWay
        ensures { result ≡ data_way (end_value self.now).values self.now.count.0 self.now.state word s.now telegram.now }
    {
        if !is_under(word, s) {
            return FetchWay::Drops;
        }
        Telegram::read(telegram).map_or(FetchWay::Drops, |telegram| self.by_telegram(telegram))
    }

    // The table of state and arriving frame: in the opening the one frame awaited, then data frames, and a release by the far end at any time.
    fn by_frame(&self, s: &[u8], frame: Frame<'_>) -> FetchWay
        ensures { result ≡ frame_way (end_value self.now).values self.now.count.0 self.now.state s.now (frame_value frame.entry) }
    {
        match (self.state, frame) {
            (State::Out(_), _) => FetchWay::Drops,
            (_, Frame::BareDi) => FetchWay::LeftByFar(ReasonCodes {
                reason: 127,
                sub_reason: 0,
            }),
            (_, Frame::Di { codes, .. }) => FetchWay::LeftByFar(codes),
            (State::Listen { .. }, Frame::Au1 { rb }) => FetchWay::AnswersAu1 { rb },
            (State::Listen { .. }, _) => FetchWay::Drops,
            (State::WaitAu2 { rb, .. }, Frame::Au2 { ra_xor_rb }) => FetchWay::AnswersAu2 {
                ra: ra_xor_rb ^ rb,
            },
            (State::WaitAu2 { .. }, _) => FetchWay::Releases(Reason::NotAu2),
            (State::WaitAu3 { ra, .. }, Frame::Au3 { ra_xor_rc }) => FetchWay::AnswersAu3 {
                rc: ra_xor_rc ^ ra,
            },
            (State::WaitAu3 { .. }, _) => FetchWay::Releases(Reason::NotAu3),
            (State::WaitAr { rb, .. }, Frame::Ar { rb: echoed }) if echoed == rb =>
                FetchWay::AnswersAr,
            (State::WaitAr { .. }, Frame::Ar { .. }) => FetchWay::Releases(Reason::WrongSession),
            (State::WaitAr { .. }, _) => FetchWay::Releases(Reason::NotAr),
            (
                State::WaitEc { words } | State::WaitFirst { words, .. } | State::Up { words, .. },
                Frame::Dt { telegram, .. },
            ) => self.by_data(words.read, s, telegram),
            _ => FetchWay::Releases(Reason::UnexpectedFrame),
        }
    }

    // Which rule applies to a string that was fetched.
    pub(crate) fn fetch_way(&self, s: &[u8]) -> FetchWay
        ensures { result ≡ fetch_way (end_value self.now) s.now }
    {
        if !is_heard(self.state, s) {
            return FetchWay::Drops;
        }
        let longest = usize::from(self.params.values().longest);
        judge(self.role, longest, s).map_or_else(
            FetchWay::Releases,
            |frame| self.by_frame(s, frame),
        )
    }
}
