// The two cyclic redundancy checks of the safety code.
ghost use Rattle.std.specs.Prelude.{◌≡◌, ℕ};
ghost use Rattle.safety.specs.Registers.{shifted, fed};
ghost use Rattle.safety.specs.Remainder.{polynomial, remainder, times_x32, Leaves};

// Which of the two checks: each has a polynomial of its own.
#[derive(Clone, Copy, PartialEq, Eq, Debug)]
pub enum Channel {
    First,
    Second,
}

impl Channel {
    // The divisor's coefficients, x^31 at the highest bit; x^32 is left out.
    fn divisor(self) -> u32
        ensures { result ≡ polynomial self }
    {
        match self {
            Channel::First => 0x100D_4E63,
            Channel::Second => 0x8CE5_6011,
        }
    }

    // One bit through the shift register: times x, less the divisor if the top bit was set.
    #[tactic(auto, using(crate::proofs::Channels::low, crate::proofs::Register::turn_high, crate::proofs::Register::turn_plain))]
    fn shift(self, register: u32) -> u32
        ensures { result ≡ shifted (polynomial self) register }
    {
        if register >> 31 == 1 {
            (register << 1) ^ self.divisor()
        } else {
            register << 1
        }
    }

    // One byte through the shift register, its highest bit first.
    fn feed(self, register: u32, byte: u8) -> u32
        ensures { result ≡ fed (polynomial self) register byte }
    {
        (0..8u32).fold(register ^ (u32::from(byte) << 24), |turned, _| {
            self.shift(turned)
        })
    }

    // The check of the bytes: the remainder of the string times x^32. `leaves` says that it is a remainder, `only` that there is no other.
    pub fn check(self, bytes: &[u8]) -> u32
        ensures answer { result ≡ remainder (polynomial self) bytes.now }
        ensures leaves { Leaves (polynomial self) (times_x32 bytes.now) result }
        ensures only { (t : ℕ) → Leaves (polynomial self) (times_x32 bytes.now) t → t ≡ result }
    {
        bytes
            .iter()
            .fold(0, |register, byte| self.feed(register, *byte))
    }
}
