// What has a layout: bytes that can be written to the start of a caller's buffer.
ghost use Rattle.std.specs.Prelude.{◌≡◌, ℕ, Bool, true, List, length, take, IfOk};
ghost use Rattle.terms.specs.Buffers.{put_after};
ghost use Rattle.terms.specs.Layouts.{allowed, write_answer, write_after};

use super::refusal::Refusal;

pub trait Layout {
    ghost use Rattle.terms.specs.declared.refusal.Refusal.{Refusal};

    // the bytes
    ghost bytes: { Self → List ℕ };

    // whether they may be written
    ghost fits: { Self → Bool };

    // the refusal of a value that may not
    ghost unfit: { Refusal };

    // what it means that reading makes the value of these bytes again
    ghost read_back: { Self → List ℕ → Type 0 };

    // How many bytes there are.
    fn size(&self) -> usize
        ensures { result ≡ length (bytes self.now) };

    // Whether they may be written.
    fn check(&self) -> Result<(), Refusal>
        ensures { result ≡ allowed (fits self.now) unfit };

    // Lays them at the start of `out`, if there is room for them.
    fn lay(&self, out: &mut [u8])
        ensures after { out.new ≡ put_after (bytes self.now) out.old }
        ensures back { fits self.now ≡ true → read_back self.now (bytes self.now) };
}

// Writes the value to the start of `out`, whose rest stays, and says how many bytes it has.
// A buffer that is too short is refused, and then the value itself; both leave `out` as it was.
pub fn write<L: Layout>(value: &L, out: &mut [u8]) -> Result<usize, Refusal>
    ensures answer { result ≡ write_answer (L.bytes value.now) (L.fits value.now) L.unfit out.old }
    ensures after { out.new ≡ write_after (L.bytes value.now) (L.fits value.now) out.old }
    ensures back { IfOk result (λ n. L.read_back value.now (take n out.new)) }
{
    let size = value.size();
    if out.len() < size {
        return Err(Refusal::BufferTooShort);
    }
    value.check()?;
    value.lay(out);
    Ok(size)
}
