// Where a text is cut: at a byte, into what stands before it and what behind it.
ghost use Rattle.std.specs.Prelude.{◌≡◌, ◌==◌, [], MatchOption, is_none, position};
ghost use Rattle.texts.specs.Pieces.{before, after, count_of, value_at};

// Where the first `c` stands.
fn find(s: &[u8], c: u8) -> Option<usize>
    ensures { result ≡ position (λ b. b == c) s.now }
{
    s.iter().position(|b| *b == c)
}

// What stands before the first `c`, and what behind it; none where no `c` stands.
#[tactic(auto, using(crate::proofs::Cuts::front_there, crate::proofs::Cuts::back_there, crate::proofs::Cuts::front_whole, crate::proofs::Cuts::back_none, crate::proofs::Cuts::mark_there, crate::proofs::Cuts::mark_missing))]
pub fn split_once(s: &[u8], c: u8) -> Option<(&[u8], &[u8])>
    ensures parts { MatchOption result ((s.now ≡ before c s.now) × ([] ≡ after c s.now)) (λ p. (p.0.now ≡ before c s.now) × (p.1.now ≡ after c s.now)) }
    ensures missing { is_none result ≡ (count_of c s.now == 0) }
{
    let i = find(s, c)?;
    Some((&s[..i], &s[i + 1..]))
}

// The same of any text: where no `c` stands, all of it stands before, and nothing behind.
pub fn cut(s: &[u8], c: u8) -> (&[u8], &[u8])
    ensures front { result.0.now ≡ before c s.now }
    ensures back { result.1.now ≡ after c s.now }
{
    split_once(s, c).unwrap_or((s, &[]))
}

// How often `c` stands in `s`. A sum and no `filter`, which would ask at each byte whether to count it: that takes up to nine times as long.
#[tactic(auto, using(crate::proofs::Cuts::tally_is))]
pub fn count(s: &[u8], c: u8) -> usize
    ensures { result ≡ count_of c s.now }
{
    s.iter()
        .fold(0, |n: usize, b| n.wrapping_add(usize::from(*b == c)))
}

// The value in column `k` of a line, from 0: the text between two spaces.
pub(crate) fn value(line: &[u8], k: usize) -> &[u8]
    ensures { result.now ≡ value_at k line.now }
{
    line.split(|b| *b == b' ').nth(k).unwrap_or(&[])
}
