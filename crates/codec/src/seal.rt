// Data frames under a safety word: sealing a telegram, and finding the word that a frame bears.
ghost use Rattle.std.specs.Prelude.{◌≡◌, Ok};
ghost use Rattle.codec.specs.Frames.{frame_value, read_frame};
ghost use Rattle.codec.specs.FrameLaws.{Writing};
ghost use Rattle.codec.specs.Sealing.{sealed, word_in, BearsOne, SealedIn, Seals};
ghost use Rattle.codec.specs.Telegrams.{telegram_value, telegram_bytes, body_fits, telegram_answer, telegram_after};
ghost use Rattle.terms.specs.declared.refusal.Refusal.TheVariants as refusal;

use super::bytes::u64_from;
use super::frame::Frame;
use super::telegram::Telegram;
use safety::word::{SafetyCode, SafetyWord};
use terms::layout;
use terms::layout::Layout;
use terms::refusal::Refusal;
use terms::role::Role;

// The word that makes the code right, if what `s` was read as is a data frame.
fn word_in_frame(frame: Frame<'_>, s: &[u8]) -> Option<SafetyWord>
    requires { Writing (frame_value frame) s.now }
    ensures { result ≡ word_in (Ok (frame_value frame.entry)) }
{
    match frame {
        Frame::Dt { code, .. } => {
            let (guarded, _) = s.split_at(s.len() - 8);
            Some(SafetyCode(u64_from(code)).word(guarded))
        }
        _ => None,
    }
}

// The one word that makes the code of a data frame right; none for any other string.
pub fn bears(s: &[u8]) -> Option<SafetyWord>
    ensures answer { result ≡ word_in (read_frame s.now) }
    ensures one { BearsOne s.now result }
{
    let frame = Frame::read(s).ok()?;
    word_in_frame(frame, s)
}

// A telegram that is to be sealed with a word.
#[derive(Clone, Copy)]
struct Sealed<'a> {
    towards: Role,
    telegram: Telegram<'a>,
    word: SafetyWord,
}

impl Layout for Sealed<'_> {
    ghost bytes = { λ s. sealed s.towards (telegram_bytes (telegram_value s.telegram)) s.word.0 };

    ghost fits = { λ s. body_fits (telegram_value s.telegram) };

    ghost unfit = { refusal.MessageTooLong };

    ghost read_back = { λ s bytes. SealedIn s.towards (telegram_bytes (telegram_value s.telegram)) s.word.0 bytes };

    #[tactic(auto, using(crate::proofs::Sealings::length_sealed))]
    fn size(&self) -> usize {
        1 + self.telegram.size() + 8
    }

    fn check(&self) -> Result<(), Refusal> {
        self.telegram.check()
    }

    fn lay(&self, out: &mut [u8]) {
        let n = 1 + self.telegram.size();
        if out.len() < n + 8 {
            return;
        }
        self.telegram.lay_behind(&[0x0A + self.towards.flag()], out);
        let code = self.word.code(&out[0..n]);
        out[n..n + 8].copy_from_slice(&code.0.to_be_bytes());
    }
}

// Writes a data frame with the telegram to the start of `out`, sealed with the word, and says how many bytes it has.
// A refusal leaves `out` as it was, and so does the rest of `out` stay.
pub fn seal(
    towards: Role,
    telegram: Telegram<'_>,
    word: SafetyWord,
    out: &mut [u8],
) -> Result<usize, Refusal>
    ensures answer { result ≡ telegram_answer (telegram_value telegram.entry) (sealed towards (telegram_bytes (telegram_value telegram.entry)) word.0) out.old }
    ensures after { out.new ≡ telegram_after (telegram_value telegram.entry) (sealed towards (telegram_bytes (telegram_value telegram.entry)) word.0) out.old }
    ensures seals { Seals towards (telegram_bytes (telegram_value telegram.entry)) word.0 result out.new }
{
    let sealed = Sealed {
        towards,
        telegram,
        word,
    };
    layout::write(&sealed, out)
}
