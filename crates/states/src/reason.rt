// Why a connection was released.
ghost use Rattle.std.specs.Prelude.{◌≡◌};
ghost use Rattle.states.specs.Reasons.{reason_codes, release_codes};

use codec::frame_type::{FrameType, ReasonCodes};

// The reasons for which an end releases; each has two code bytes, which its DI carries.
#[derive(Clone, Copy)]
pub enum Reason {
    // the end was stopped
    Stopped,
    // AR has another session number than AU1 had
    WrongSession,
    // once the data exchange has begun: a frame that is no DT
    UnexpectedFrame,
    // the flag of a frame is 0 where the receiver is the initiator
    FlagClear,
    // the flag of a frame is 1 where the receiver is the responder
    FlagSet,
    // the opening took longer than `setup` ticks
    SetupTimeout,
    // a frame or telegram of a type or layout that has no place here
    Malformed,
    // the fixed bytes of an AU1 differ
    Au1Fixed,
    // another frame than the one awaited
    NotAu2,
    NotAu3,
    NotAr,
    // the length of a frame of this type is wrong
    WrongLength(FrameType),
    // a telegram of the other option of the protocol
    OtherOption,
    // ECStart has another version, or another period
    WrongVersion,
    WrongPeriod,
    // the first telegram did not come within `wait` ticks
    FirstTimeout,
    // no AM+ACK came within `ask` and `wait` ticks
    AckTimeout,
    // EC or SN has no next value
    CounterUsedUp,
    // a telegram is older or newer than the sheet allows
    WrongAge,
    // a sequence number lies beyond the window
    BeyondWindow,
}

// Who released: this end, for a reason of its own, or the far end, with the codes that it gave.
#[derive(Clone, Copy)]
pub enum Release {
    Own(Reason),
    Far(ReasonCodes),
}

fn codes(reason: u8, sub_reason: u8) -> ReasonCodes
    ensures { result ≡ record { reason = reason; sub_reason = sub_reason } }
{
    ReasonCodes { reason, sub_reason }
}

// The two code bytes of a reason.
impl From<Reason> for ReasonCodes {
    ghost from_gives = { λ reason bytes. bytes ≡ reason_codes reason };

    fn from(reason: Reason) -> ReasonCodes {
        match reason {
            Reason::Stopped => codes(0, 0),
            Reason::WrongSession => codes(4, 4),
            Reason::UnexpectedFrame => codes(5, 1),
            Reason::FlagClear => codes(6, 1),
            Reason::FlagSet => codes(6, 2),
            Reason::SetupTimeout => codes(7, 3),
            Reason::Malformed => codes(8, 1),
            Reason::Au1Fixed => codes(8, 5),
            Reason::NotAu2 => codes(9, 1),
            Reason::NotAu3 => codes(9, 2),
            Reason::NotAr => codes(9, 3),
            Reason::WrongLength(kind) => kind.rule().wrong_length,
            Reason::OtherOption => codes(128, 2),
            Reason::WrongVersion => codes(128, 3),
            Reason::FirstTimeout => codes(128, 4),
            Reason::AckTimeout => codes(128, 5),
            Reason::CounterUsedUp => codes(128, 16),
            Reason::WrongPeriod => codes(128, 17),
            Reason::WrongAge => codes(129, 1),
            Reason::BeyondWindow => codes(129, 3),
        }
    }
}

// The two code bytes of a release.
impl From<Release> for ReasonCodes {
    ghost from_gives = { λ release bytes. bytes ≡ release_codes release };

    fn from(release: Release) -> ReasonCodes {
        match release {
            Release::Own(reason) => ReasonCodes::from(reason),
            Release::Far(codes) => codes,
        }
    }
}
