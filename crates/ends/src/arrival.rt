// What a fetched string is to an end: a frame, or a reason to release.
ghost use Rattle.std.specs.Prelude.{◌≡◌, IfOk};
ghost use Rattle.codec.specs.FrameTypes.{type_named};
ghost use Rattle.codec.specs.Frames.{Parts};
ghost use Rattle.ends.specs.Arrivals.{wrong_flag, wrong_fixed, refused_frame, typed_arrival, arrival, arrived};

use codec::frame::Frame;
use codec::frame_type::FrameType;
use states::reason::Reason;
use terms::refusal::Refusal;
use terms::role::Role;

fn flag_reason(role: Role) -> Reason
    ensures { result ≡ wrong_flag role }
{
    match role {
        Role::Initiator => Reason::FlagClear,
        Role::Responder => Reason::FlagSet,
    }
}

// What a refusal of the frame reader is to an end.
fn frame_reason(kind: FrameType, refusal: Refusal) -> Reason
    ensures { result ≡ refused_frame kind refusal }
{
    match (refusal, kind) {
        (Refusal::FrameLength, _) => Reason::WrongLength(kind),
        (_, FrameType::Au1) => Reason::Au1Fixed,
        _ => Reason::Malformed,
    }
}

// Type, then flag, then length and fixed bytes.
fn typed(role: Role, most: usize, first: u8, body: &[u8]) -> Result<Frame<'_>, Reason>
    ensures answer { arrived result ≡ typed_arrival role most first body.now (type_named first) }
    ensures parts { IfOk result Parts }
{
    let Some(kind) = FrameType::named(first) else {
        return Err(Reason::Malformed);
    };
    if first % 2 != role.flag() {
        return Err(flag_reason(role));
    }
    Frame::read_typed(kind, role, most, body).map_err(|refusal| frame_reason(kind, refusal))
}

// Judges a string that arrives at an end of this role, where a message has at most `most` bytes.
pub(crate) fn judge(role: Role, most: usize, s: &[u8]) -> Result<Frame<'_>, Reason>
    ensures answer { arrived result ≡ arrival role most s.now }
    ensures parts { IfOk result Parts }
{
    match s {
        [] => Ok(Frame::BareDi),
        [first, body @ ..] => typed(role, most, *first, body),
    }
}
