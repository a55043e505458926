// What an opening takes, and what it hands out.
ghost use Rattle.std.specs.Prelude.{◌≡◌};
ghost use Rattle.terms.specs.declared.role.Role.{Role};
ghost use Rattle.states.specs.declared.state.State.{State};

use super::sealed::{Opening, Sealed};
use states::state::State;
use terms::role::Role;

// A session number: moved into one opening, and not to be copied.
#[derive(Drop)]
pub struct SessionNumber {
    pub(crate) value: u64,
}

impl SessionNumber {
    pub fn new(value: u64) -> SessionNumber
        ensures { result.value ≡ value }
    {
        SessionNumber { value }
    }
}

// What an end of one of the two parties is opened with.
pub trait SessionNumbers: Sealed + Drop {
    // The party.
    ghost role: { Role };

    // The state in which its end begins.
    ghost first: { Self → State };

    fn role() -> Role
        ensures { result ≡ role };

    // To an opening alone: whoever else has the numbers cannot read them.
    fn first_state(&self, opening: Opening) -> State
        ensures { result ≡ first self.now };
}

// Handed out with an end, and taken back by its stop alone: it cannot be let go.
pub struct StopToken {
    pub(crate) spent: (),
}
