//! What the rule of a deque comes to.
ghost use Rattle.std.specs.Prelude.{◌≡◌, ◌+◌, ℕ, List};
ghost use Rattle.pooma_ready.specs.Dealing.{IsDealt, times};

/// The law of ready numbers: where the rule of a deque holds, each number was put as often as it was given to the owner, was given
/// to the thief and is in the deque, together. It does nothing; its contract is for proofs.
pub fn none_is_lost_or_doubled()
    ensures each_as_often { (put given stolen items : List ℕ) → IsDealt put given stolen items → (x : ℕ) → times x put ≡ times x given + times x stolen + times x items }
{}
