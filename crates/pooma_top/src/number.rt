//! Numbers as words.
ghost use Rattle.std.specs.Prelude.{◌≡◌, ◌≤◌, ◌↔◌, ℕ, decimal, IsTrue, IfSome, IfNone};

use itoa::Buffer;

/// The number of this range that the word is, or None where it is none: decimal digits without a sign and without a leading
/// zero.
pub fn number_in(word: &str, least: u32, most: u32) -> Option<u32>
    ensures range { IfSome result (λ n. (least ≤ n) × (n ≤ most)) }
    ensures found { IfSome result (λ n. word.now ≡ decimal n) }
    ensures none { IfNone result ((n : ℕ) → least ≤ n → n ≤ most → word.now ≡ decimal n → ⊥) }
{
    let Ok(number) = word.parse::<u32>() else {
        return None;
    };
    if number < least {
        return None;
    }
    if number > most {
        return None;
    }
    // Signs and leading zeros are read too, but are not written.
    if !is_written(number, word) {
        return None;
    }
    Some(number)
}

// Whether the word is the decimal text of the number.
fn is_written(number: u32, word: &str) -> bool
    ensures { IsTrue result ↔ (word.now ≡ decimal number) }
{
    let mut text = Buffer::new();
    text.format(number) == word
}
