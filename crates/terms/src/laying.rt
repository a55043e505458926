// Strings laid into a caller's buffer.
ghost use Rattle.std.specs.Prelude.{◌≡◌, ◌+◌, ◌++◌, nat_le};
ghost use Rattle.terms.specs.Buffers.{put_after};

// Whether three strings go into `room` bytes; their lengths may be too great to be summed.
fn have_room(room: usize, a: usize, b: usize, c: usize) -> bool
    ensures { result ≡ nat_le (a + (b + c)) room }
{
    a <= room && b <= room - a && c <= room - a - b
}

// Lays three strings one behind the other at the start of `out`, whose rest stays. Where they do not fit, all of `out` stays.
pub fn lay(out: &mut [u8], a: &[u8], b: &[u8], c: &[u8])
    ensures { out.new ≡ put_after (a.now ++ (b.now ++ c.now)) out.old }
{
    if !have_room(out.len(), a.len(), b.len(), c.len()) {
        return;
    }
    let x = a.len();
    let y = x + b.len();
    let z = y + c.len();
    out[0..x].copy_from_slice(a);
    out[x..y].copy_from_slice(b);
    out[y..z].copy_from_slice(c);
}
