// What a call on an end answers.
use states::state::Status;
use terms::refusal::Refusal;

// The bytes of a fetch buffer from `from` on, up to `to`.
#[derive(Clone, Copy)]
pub struct Place {
    pub from: usize,
    pub to: usize,
}

// The state after the call, and what the call did: why it was refused, where a message stands in the fetch buffer,
// and the length of the frame that it put.
#[derive(Clone, Copy)]
pub struct Answer {
    pub refused: Option<Refusal>,
    pub status: Status,
    pub delivered: Option<Place>,
    pub put: Option<usize>,
}
