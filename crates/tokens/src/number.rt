// Numbers in decimal digits.
ghost use Rattle.std.specs.Prelude.{◌≡◌};
ghost use Rattle.tokens.specs.Words.{digit_after, number_of, signed_of};

use crate::word::behind;

// The number with one more digit behind it.
fn with_digit(n: usize, b: u8) -> Option<usize>
    ensures { result ≡ digit_after n b }
{
    match b {
        b'0'..=b'9' => n.checked_mul(10)?.checked_add(usize::from(b - b'0')),
        _ => None,
    }
}

// The number that a word writes: digits only, and below 2 to the 64th.
#[tactic(auto, using(crate::proofs::Digits::more, crate::proofs::Digits::whole, crate::proofs::Digits::below_some))]
pub fn number(word: &[u8]) -> Option<usize>
    ensures { result ≡ number_of word.now }
{
    if word.is_empty() {
        return None;
    }
    let mut n: usize = 0;
    for b in word {
        n = with_digit(n, *b)?;
    }
    Some(n)
}

// The same, perhaps behind a minus sign.
pub fn signed(word: &[u8]) -> Option<i128>
    ensures { result ≡ signed_of word.now }
{
    match behind(b'-', word) {
        Some(digits) => Some(-(number(digits)? as i128)),
        None => Some(number(word)? as i128),
    }
}
