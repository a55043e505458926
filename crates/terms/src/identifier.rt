// Who an end is: two halves, as a parameter sheet writes them.
ghost use Rattle.std.specs.Prelude.{◌≡◌};
ghost use Rattle.terms.specs.Identifiers.{identifier_number};

#[derive(Clone, Copy, PartialEq, Eq, Debug)]
pub struct Identifier {
    pub first: u32,
    pub second: u32,
}

// Both halves as one number, the first the higher.
impl From<Identifier> for u64 {
    ghost from_gives = { λ identifier n. n ≡ identifier_number identifier };

    fn from(identifier: Identifier) -> u64 {
        (u64::from(identifier.first) << 32) + u64::from(identifier.second)
    }
}
