// A word on its own: whether it is a text, and what follows its first byte.
ghost use Rattle.std.specs.Prelude.{◌≡◌};
ghost use Rattle.std.specs.Option.{option_map};
ghost use Rattle.std.specs.Str.{bytes_eq};
ghost use Rattle.tokens.specs.Words.{behind as rest};

// Whether the word is this text.
pub fn is(word: &[u8], text: &[u8]) -> bool
    ensures { result ≡ bytes_eq word.now text.now }
{
    word == text
}

// What follows a first byte, where the word begins with it.
pub fn behind(mark: u8, word: &[u8]) -> Option<&[u8]>
    ensures { option_map (λ x. x.now) result ≡ rest mark word.now }
{
    word.strip_prefix(&[mark])
}
