// What the calls on an end write to.
ghost use Rattle.std.specs.Prelude.{◌≡◌, replicate};
ghost use Rattle.carrier.specs.Rules.{greatest_length};
ghost use Rattle.ends.specs.Puts.{longest_frame};

use carrier::GREATEST_LENGTH;
use terms::lengths::LONGEST_FRAME;

// Long enough for the strings of any carrier, and for any frame.
#[derive(Drop)]
pub struct Buffers {
    pub fetched: [u8; GREATEST_LENGTH],
    pub out: [u8; LONGEST_FRAME],
}

impl Buffers {
    pub fn new() -> Buffers
        ensures fetched { result.fetched ≡ replicate greatest_length 0 }
        ensures out { result.out ≡ replicate longest_frame 0 }
    {
        Buffers {
            fetched: [0; GREATEST_LENGTH],
            out: [0; LONGEST_FRAME],
        }
    }
}
