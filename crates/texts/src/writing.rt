// Writing a value as it is read.
ghost use Rattle.std.specs.Prelude.{Some};
ghost use Rattle.texts.specs.Writing.{hex_text};

use std::fmt;

// Shown as eight capital hexadecimal digits.
#[derive(Clone, Copy)]
pub struct Hex(pub u32);

#[tactic(auto, using(crate::proofs::HexTrips::hex_shown))]
impl fmt::Display for Hex {
    ghost output = { λ h. Some (hex_text h.0) };

    fn fmt<W: fmt::Write>(&self, f: &mut fmt::Formatter<W>) -> fmt::Result {
        let number = self.0;
        write!(f, "{number:08X}")
    }
}
