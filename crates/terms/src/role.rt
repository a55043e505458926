// The two parties of a connection, and the two sides of what joins them.
ghost use Rattle.std.specs.Prelude.{◌≡◌, Some};
ghost use Rattle.terms.specs.Roles.{far, flag, letter};

use std::fmt;

#[derive(Clone, Copy, PartialEq, Eq, Debug)]
pub enum Role {
    Initiator,
    Responder,
}

impl Role {
    // The other party.
    pub fn far(self) -> Role
        ensures { result ≡ far self }
    {
        match self {
            Role::Initiator => Role::Responder,
            Role::Responder => Role::Initiator,
        }
    }

    // The flag in the first byte of a frame towards this party.
    pub fn flag(self) -> u8
        ensures { result ≡ flag self }
    {
        match self {
            Role::Initiator => 1,
            Role::Responder => 0,
        }
    }
}

// Shown as one letter, as scripts and listings name an end.
impl fmt::Display for Role {
    ghost output = { λ role. Some (letter role) };

    fn fmt<W: fmt::Write>(&self, f: &mut fmt::Formatter<W>) -> fmt::Result {
        match self {
            Role::Initiator => f.write_str("I"),
            Role::Responder => f.write_str("R"),
        }
    }
}
