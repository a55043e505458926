// Frames: reading a string as the one frame it is, and writing a frame.
ghost use Rattle.std.specs.Prelude.{◌≡◌, ◌≤◌, length, Ok, IfOk};
ghost use Rattle.terms.specs.declared.refusal.Refusal.TheVariants as refusal;
ghost use Rattle.codec.specs.Frames.{frame_value, frame_values, sized, Parts, bytes_of, head_of, read_au1, read_au2, read_di, read_dt, read_body, read_typed, read_frame, write_answer, write_after};
ghost use Rattle.codec.specs.FrameTypes.{Suits};
ghost use Rattle.codec.specs.FrameLaws.{Judged, WrittenAgain, ReadBack};

use super::bytes::u64_from;
use super::frame_type::{FrameType, ReasonCodes};
use terms::laying::lay;
use terms::layout;
use terms::layout::Layout;
use terms::lengths::LONGEST_MESSAGE;
use terms::refusal::Refusal;
use terms::role::Role;

// A frame. The data case borrows telegram and safety code from the string that it was read from.
#[derive(Clone, Copy)]
pub enum Frame<'a> {
    // the empty string: a release that gives no reason
    BareDi,
    Au1 {
        rb: u64,
    },
    Au2 {
        ra_xor_rb: u64,
    },
    Au3 {
        ra_xor_rc: u64,
    },
    Ar {
        rb: u64,
    },
    Di {
        towards: Role,
        codes: ReasonCodes,
    },
    Dt {
        towards: Role,
        telegram: &'a [u8],
        code: &'a [u8],
    },
}

// The type of frame and the direction that a first byte names.
fn head(first: u8) -> Option<(FrameType, Role)>
    ensures { result ≡ head_of first }
{
    match first {
        0x02 => Some((FrameType::Au1, Role::Responder)),
        0x05 => Some((FrameType::Au2, Role::Initiator)),
        0x06 => Some((FrameType::Au3, Role::Responder)),
        0x0A => Some((FrameType::Dt, Role::Responder)),
        0x0B => Some((FrameType::Dt, Role::Initiator)),
        0x10 => Some((FrameType::Di, Role::Responder)),
        0x11 => Some((FrameType::Di, Role::Initiator)),
        0x13 => Some((FrameType::Ar, Role::Initiator)),
        _ => None,
    }
}

fn au1_from(body: &[u8]) -> Result<Frame<'_>, Refusal>
    requires { length body.now ≡ 12 }
    ensures answer { frame_values result ≡ read_au1 body.now }
    ensures parts { IfOk result Parts }
{
    match body {
        [0, 0, 0, 2, rb @ ..] => Ok(Frame::Au1 { rb: u64_from(rb) }),
        _ => Err(Refusal::FrameFixed),
    }
}

// The eight bytes between the fixed ones and the number are ignored.
fn au2_from(body: &[u8]) -> Result<Frame<'_>, Refusal>
    requires { length body.now ≡ 20 }
    ensures answer { frame_values result ≡ read_au2 body.now }
    ensures parts { IfOk result Parts }
{
    match body {
        [0, 0, 0, 2, _, _, _, _, _, _, _, _, mix @ ..] => Ok(Frame::Au2 {
            ra_xor_rb: u64_from(mix),
        }),
        _ => Err(Refusal::FrameFixed),
    }
}

fn di_from(towards: Role, body: &[u8]) -> Result<Frame<'_>, Refusal>
    requires { length body.now ≡ 2 }
    ensures answer { frame_values result ≡ read_di towards body.now }
    ensures parts { IfOk result Parts }
{
    let [reason, sub_reason] = *body.as_array::<2>().unwrap();
    Ok(Frame::Di {
        towards,
        codes: ReasonCodes { reason, sub_reason },
    })
}

fn dt_from(towards: Role, body: &[u8]) -> Result<Frame<'_>, Refusal>
    requires { 17 ≤ length body.now }
    ensures answer { frame_values result ≡ read_dt towards body.now }
    ensures parts { IfOk result Parts }
{
    let n = body.len() - 8;
    let (telegram, code) = body.split_at(n);
    Ok(Frame::Dt {
        towards,
        telegram,
        code,
    })
}

// What stands behind the first byte, at a length that suits the type.
fn typed_from(kind: FrameType, towards: Role, body: &[u8]) -> Result<Frame<'_>, Refusal>
    requires { Suits kind (length body.now) }
    ensures answer { frame_values result ≡ read_body kind towards body.now }
    ensures parts { IfOk result Parts }
{
    match kind {
        FrameType::Au1 => au1_from(body),
        FrameType::Au2 => au2_from(body),
        FrameType::Au3 => Ok(Frame::Au3 {
            ra_xor_rc: u64_from(body),
        }),
        FrameType::Dt => dt_from(towards, body),
        FrameType::Di => di_from(towards, body),
        FrameType::Ar => Ok(Frame::Ar { rb: u64_from(body) }),
    }
}

// First the type, then the length, then what the type's layout says.
fn parse(s: &[u8]) -> Result<Frame<'_>, Refusal>
    ensures answer { frame_values result ≡ read_frame s.now }
    ensures parts { IfOk result Parts }
{
    let [first, body @ ..] = s else {
        return Ok(Frame::BareDi);
    };
    let (kind, towards) = head(*first).ok_or(Refusal::FrameType)?;
    Frame::read_typed(kind, towards, LONGEST_MESSAGE, body)
}

impl<'a> Frame<'a> {
    // Reads what stands behind a first byte whose type and direction are settled, where a message has at most `most` bytes.
    pub fn read_typed(
        kind: FrameType,
        towards: Role,
        most: usize,
        body: &'a [u8],
    ) -> Result<Frame<'a>, Refusal>
        ensures answer { frame_values result ≡ read_typed kind towards most body.now }
        ensures parts { IfOk result Parts }
    {
        if !kind.suits(1 + body.len(), most) {
            return Err(Refusal::FrameLength);
        }
        typed_from(kind, towards, body)
    }

    // Reads a string as the one frame it is, or refuses it: type, length, fixed bytes, in that order.
    pub fn read(s: &'a [u8]) -> Result<Frame<'a>, Refusal>
        ensures answer { frame_values result ≡ read_frame s.now }
        ensures parts { IfOk result Parts }
        ensures judged { Judged s.now (frame_values result) }
        ensures again { WrittenAgain s.now (frame_values result) }
    {
        parse(s)
    }

    // How many bytes the frame has.
    pub fn size(self) -> usize
        ensures { result ≡ length (bytes_of (frame_value self.entry)) }
    {
        match self {
            Frame::BareDi => 0,
            Frame::Au1 { .. } => 13,
            Frame::Au2 { .. } => 21,
            Frame::Au3 { .. } => 9,
            Frame::Ar { .. } => 9,
            Frame::Di { .. } => 3,
            Frame::Dt { telegram, code, .. } => 1 + telegram.len() + code.len(),
        }
    }

    // Writes the frame to the start of `out`, whose rest stays, and says how many bytes it has; a refusal leaves `out` as it was.
    pub fn write(self, out: &mut [u8]) -> Result<usize, Refusal>
        ensures answer { result ≡ write_answer (frame_value self.entry) out.old }
        ensures after { out.new ≡ write_after (frame_value self.entry) out.old }
        ensures back { ReadBack (frame_value self.entry) result out.new }
    {
        layout::write(&self, out)
    }
}

impl Layout for Frame<'_> {
    ghost bytes = { λ frame. bytes_of (frame_value frame) };

    ghost fits = { λ frame. sized (frame_value frame) };

    ghost unfit = { refusal.FrameLength };

    ghost read_back = { λ frame s. read_frame s ≡ Ok (frame_value frame) };

    fn size(&self) -> usize {
        Frame::size(*self)
    }

    // Whether the parts of a data frame have lengths that suit.
    fn check(&self) -> Result<(), Refusal> {
        match self {
            Frame::Dt { telegram, code, .. }
                if !(9..=9 + LONGEST_MESSAGE).contains(&telegram.len()) || code.len() != 8 => {
                Err(Refusal::FrameLength)
            }
            _ => Ok(()),
        }
    }

    #[tactic(auto, using(crate::proofs::Judging::read_back))]
    fn lay(&self, out: &mut [u8]) {
        match *self {
            Frame::BareDi => {}
            Frame::Au1 { rb } => lay(out, &[0x02, 0, 0, 0, 2], &rb.to_be_bytes(), &[]),
            Frame::Au2 { ra_xor_rb } => lay(
                out,
                &[0x05, 0, 0, 0, 2],
                &[0x22, 0x47, 0x52, 0x41, 0x54, 0x49, 0x53, 0x22],
                &ra_xor_rb.to_be_bytes(),
            ),
            Frame::Au3 { ra_xor_rc } => lay(out, &[0x06], &ra_xor_rc.to_be_bytes(), &[]),
            Frame::Ar { rb } => lay(out, &[0x13], &rb.to_be_bytes(), &[]),
            Frame::Di { towards, codes } => lay(
                out,
                &[0x10 + towards.flag()],
                &[codes.reason, codes.sub_reason],
                &[],
            ),
            Frame::Dt {
                towards,
                telegram,
                code,
            } => lay(out, &[0x0A + towards.flag()], telegram, code),
        }
    }
}
