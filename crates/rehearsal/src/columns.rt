// The last column of a listing: why the call was refused, or why the end is out.
ghost use Rattle.std.specs.Prelude.{◌≡◌, Some};
ghost use Rattle.rehearsal.specs.Columns.{why_of, why_text};

use codec::frame_type::ReasonCodes;
use ends::answer::Answer;
use states::reason::Release;
use states::state::Status;
use std::fmt;
use terms::refusal::Refusal;

#[derive(Clone, Copy)]
pub(crate) enum Why {
    Nothing,
    Refused(Refusal),
    Out(Release),
}

impl From<Answer> for Why {
    ghost from_gives = { λ answer why. why ≡ why_of answer };

    fn from(answer: Answer) -> Why {
        match (answer.refused, answer.status) {
            (Some(refusal), _) => Why::Refused(refusal),
            (None, Status::Out(release)) => Why::Out(release),
            (None, _) => Why::Nothing,
        }
    }
}

impl fmt::Display for Why {
    ghost output = { λ w. Some (why_text w) };

    fn fmt<W: fmt::Write>(&self, f: &mut fmt::Formatter<W>) -> fmt::Result {
        match *self {
            Why::Nothing => f.write_str("-"),
            Why::Refused(refusal) => {
                let number = u8::from(refusal);
                write!(f, "no{number}")
            }
            Why::Out(Release::Own(reason)) => {
                let codes = ReasonCodes::from(reason);
                write!(f, "{codes}")
            }
            Why::Out(Release::Far(codes)) => write!(f, "f{codes}"),
        }
    }
}
