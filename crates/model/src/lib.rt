// The law of the link for calls that are numbers: its proof speaks of order alone, of no frame and no end.
#![tactic(auto)]

ghost use Rattle.std.specs.Prelude.{◌≡◌, ℕ};
ghost use Rattle.model.specs.Model.{Who, Deed, Order, Young, Recent};

// Nothing is worked out: the contract asks for the proofs.
pub fn model_stands()
    ensures order { (w : ℕ → Who) (d : ℕ → Deed) (a b : ℕ) → Order w d a b }
    ensures young { (w : ℕ → Who) (d : ℕ → Deed) (a b : ℕ) → Young w d a b }
    ensures recent { (w : ℕ → Who) (d : ℕ → Deed) (a b : ℕ) → Recent w d a b }
{}
