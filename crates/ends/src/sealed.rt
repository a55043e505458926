// What keeps a public trait to the impls of this crate, and its answers to the openings.

pub trait Sealed {}

// What an opening asks for a first state with. No other crate can make one, so that no session number is read and used again.
#[derive(Clone, Copy)]
pub struct Opening {
    pub(crate) begins: (),
}
