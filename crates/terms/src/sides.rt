// One of a kind for each party of a connection.
ghost use Rattle.std.specs.Borrow.{sem};
ghost use Rattle.std.specs.Prelude.{◌≡◌};
ghost use Rattle.terms.specs.Sides.{at, LendsSide};

use super::role::Role;

// What the initiator has, and what the responder has.
#[derive(Clone, Copy, Drop)]
pub struct Sides<T> {
    pub initiator: T,
    pub responder: T,
}

impl<T> Sides<T> {
    // What a party has.
    pub fn at(&self, side: Role) -> &T
        ensures { result.now ≡ at self.now side }
    {
        match side {
            Role::Initiator => &self.initiator,
            Role::Responder => &self.responder,
        }
    }

    // The same, to be changed; what the other party has stays.
    pub fn at_mut(&mut self, side: Role) -> &mut T
        ensures* writes_back { sem 𝓛 (LendsSide T.row self.entry side result) }
        ensures value { result.now ≡ at self.old side }
    {
        match side {
            Role::Initiator => &mut self.initiator,
            Role::Responder => &mut self.responder,
        }
    }
}
