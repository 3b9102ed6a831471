// Masks: bit i is circle i.
ghost use Rattle.std.specs.Prelude.{◌≡◌};
ghost use Rattle.scope.specs.Runs.{bit};

// Bit i of a mask. It has 64; beyond them there is none.
#[tactic(auto, using(crate::proofs::Beyond::no_bit_beyond), unfolding(scope::specs::Runs::bit))]
pub fn holds(mask: u64, i: usize) -> bool
    ensures { result ≡ bit mask i }
{
    if i >= 64 {
        return false;
    }
    (mask >> i) % 2 == 1
}
