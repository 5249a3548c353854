//! The law that a line reads in one way.
ghost use Rattle.std.specs.Prelude.{◌≡◌, ◌⊎◌, ℕ, List};
ghost use Rattle.pooma_text.specs.declared.token.Token.{Token};
ghost use Rattle.pooma_text.specs.Tokens.{HasStray, HasTokens};

/// The law that a line has one reading: either one list of tokens, or one first byte that begins no token with
/// one list of tokens before it.
///
/// It does nothing; its contract is for proofs about what a line says.
pub fn one_reading()
    ensures some { (line : List ℕ) → ((all : List Token) × HasTokens line all)
        ⊎ ((before : List Token) × (place : ℕ) × HasStray line before place) }
    ensures tokens { (line : List ℕ) (a b : List Token) → HasTokens line a → HasTokens line b → a ≡ b }
    ensures stray { (line : List ℕ) (a b : List Token) (p q : ℕ) → HasStray line a p → HasStray line b q
        → (a ≡ b) × (p ≡ q) }
    ensures never_both { (line : List ℕ) (before all : List Token) (place : ℕ) → HasStray line before place
        → HasTokens line all → ⊥ }
{}
