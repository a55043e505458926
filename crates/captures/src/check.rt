// Strings whose two checks are known from elsewhere.
ghost use Rattle.std.specs.Prelude.{◌≡◌};
ghost use Rattle.captures.specs.Checks.{checks_of, walked};

use safety::crc::Channel;

// A check of each channel.
#[derive(Clone, Copy, PartialEq, Eq)]
pub struct Checks {
    pub first: u32,
    pub second: u32,
}

// The two checks of a string, and whether they are those that were given with it.
#[derive(Clone, Copy)]
pub struct Walk {
    pub checks: Checks,
    pub agrees: bool,
}

impl Checks {
    pub fn of(bytes: &[u8]) -> Checks
        ensures { result ≡ checks_of bytes.now }
    {
        Checks {
            first: Channel::First.check(bytes),
            second: Channel::Second.check(bytes),
        }
    }
}

impl Walk {
    pub fn of(bytes: &[u8], given: Checks) -> Walk
        ensures { result ≡ walked bytes.now given }
    {
        let checks = Checks::of(bytes);
        Walk {
            checks,
            agrees: checks == given,
        }
    }
}
