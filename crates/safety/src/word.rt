// The safety code: two checks of all bytes before it, under a word that names the connection.
ghost use Rattle.std.specs.Prelude.{◌≡◌};
ghost use Rattle.safety.specs.Words.{checks, code_of, word_borne, connection_word};

use crate::crc::Channel;
use terms::identifier::Identifier;

// The word of one direction of a connection: the receiver's identifier and the sender's session number.
#[derive(Clone, Copy, PartialEq, Eq, Debug)]
pub struct SafetyWord(pub u64);

#[derive(Clone, Copy, PartialEq, Eq, Debug)]
pub struct SafetyCode(pub u64);

// The first check in the high half, the second in the low half.
#[tactic(auto, unfolding(crate::specs::Words::checks))]
fn checks_of(bytes: &[u8]) -> u64
    ensures { result ≡ checks bytes.now }
{
    let first = Channel::First.check(bytes);
    let second = Channel::Second.check(bytes);
    (u64::from(first) << 32) + u64::from(second)
}

impl SafetyWord {
    // The word by which `receiver` reads, where the sender's session number is `session`.
    pub fn of(receiver: Identifier, session: u64) -> SafetyWord
        ensures { result.0 ≡ connection_word receiver session }
    {
        SafetyWord(u64::from(receiver) ^ session)
    }

    // The code that stands behind `bytes` under this word.
    pub fn code(self, bytes: &[u8]) -> SafetyCode
        ensures { result.0 ≡ code_of self.0 bytes.now }
    {
        SafetyCode(checks_of(bytes) ^ self.0)
    }
}

impl SafetyCode {
    // The word under which this code is right behind `bytes`.
    pub fn word(self, bytes: &[u8]) -> SafetyWord
        ensures { result.0 ≡ word_borne self.0 bytes.now }
    {
        SafetyWord(checks_of(bytes) ^ self.0)
    }
}
