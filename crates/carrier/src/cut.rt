// The smallest carrier, as an example of how one is written: a cable that is cut, so that nothing comes out of it.
ghost use Rattle.std.specs.Prelude.{◌≡◌, []};
ghost use Rattle.carrier.specs.Rules.{greatest_length};
ghost use Rattle.carrier.specs.Cuts.{cut_put, cut_fetch};
ghost use Rattle.std.proofs.Common.{rules};

use crate::{Carrier, GREATEST_LENGTH, Keeping};
use terms::refusal::Refusal;
use terms::role::Role;

#[derive(Drop)]
pub struct CutCable;

impl Carrier for CutCable {
    ghost meaning = { λ _. record { largest = greatest_length; strings = λ _. [] } };

    ghost putting = { λ _ _ s r _. r ≡ cut_put s };

    ghost fetching = { λ _ _ buf r buf' _. (r ≡ cut_fetch buf) × (buf' ≡ buf) };

    ghost limit = { Prim.search rules };

    fn max_len(&self) -> usize {
        GREATEST_LENGTH
    }

    fn put(&mut self, _from: Role, s: &[u8]) -> Result<Keeping, Refusal> {
        if s.len() > GREATEST_LENGTH {
            return Err(Refusal::StringTooLong);
        }
        Ok(Keeping::NotKept)
    }

    fn fetch(&mut self, _at: Role, buf: &mut [u8]) -> Result<Option<usize>, Refusal> {
        if buf.len() < GREATEST_LENGTH {
            return Err(Refusal::BufferTooShort);
        }
        Ok(None)
    }
}
