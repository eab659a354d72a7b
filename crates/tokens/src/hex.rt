// Bytes in hexadecimal digits.
ghost use Rattle.std.specs.Prelude.{◌≡◌, vec_items};
ghost use Rattle.tokens.specs.Words.{hex_digit, hex_byte, hex_bytes, bytes_of};
ghost use Rattle.tokens.specs.Reads.{Reads};

use crate::error::WordError;
use std::alloc::Global;

// The value of a digit; the letters are in lower case.
fn digit(b: u8) -> Option<u8>
    ensures { result ≡ hex_digit b }
{
    match b {
        b'0'..=b'9' => Some(b - b'0'),
        b'a'..=b'f' => Some(b - b'a' + 10),
        _ => None,
    }
}

// The byte that two digits write.
fn byte(high: u8, low: u8) -> Option<u8>
    ensures { result ≡ hex_byte high low }
{
    Some(16 * digit(high)? + digit(low)?)
}

// Two digits for each byte.
#[tactic(auto, using(crate::proofs::Pairs::whole, crate::proofs::Pairs::odd))]
fn pairs(heap: Global, word: &[u8]) -> Result<Vec<u8>, WordError>
    ensures { Reads vec_items result (hex_bytes word.now) }
{
    let (pairs, []) = word.as_chunks::<2>() else {
        return Err(WordError::Malformed);
    };
    let mut found = Vec::new(heap);
    for [high, low] in pairs {
        found.push(byte(*high, *low).ok_or(WordError::Malformed)?)?;
    }
    Ok(found)
}

// The bytes that a word writes: two digits for each, or a dash for none.
pub fn bytes(heap: Global, word: &[u8]) -> Result<Vec<u8>, WordError>
    ensures { Reads vec_items result (bytes_of word.now) }
{
    match word {
        b"-" => Ok(Vec::new(heap)),
        [] => Err(WordError::Malformed),
        _ => pairs(heap, word),
    }
}
