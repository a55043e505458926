// Values that are words: printable bytes with no space among them.
ghost use Rattle.std.specs.Prelude.{◌≡◌};
ghost use Rattle.std.specs.Str.{bytes_eq};
ghost use Rattle.texts.specs.Words.{printable, is_word};

// Whether a text is just this word.
pub fn is(text: &[u8], word: &str) -> bool
    ensures { result ≡ bytes_eq text.now word.now }
{
    text == word.as_bytes()
}

// Whether each byte is printable and no space.
fn is_printable(s: &[u8]) -> bool
    ensures { result ≡ printable s.now }
{
    s.iter().all(|b| b.is_ascii_graphic())
}

// Whether `s` is a word of at most so many bytes.
pub fn is_word(s: &[u8], longest: usize) -> bool
    ensures { result ≡ is_word longest s.now }
{
    (1..=longest).contains(&s.len()) && is_printable(s)
}
