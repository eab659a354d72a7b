// The words of a line, taken one by one.
ghost use Rattle.std.specs.Prelude.{◌≡◌, ◌==◌, position};
ghost use Rattle.std.specs.Iterator.{YieldsFirstRef, item_count};
ghost use Rattle.tokens.specs.Words.{words_of};
ghost use Rattle.tokens.specs.Left.{left};

// What is left of a line: words one space apart, or no word at all.
#[derive(Clone, Copy)]
pub struct Words<'a> {
    rest: Option<&'a [u8]>,
}

impl<'a> Words<'a> {
    // All words of a line.
    pub fn new(line: &'a [u8]) -> Words<'a>
        ensures { left result ≡ words_of line.now }
    {
        Words { rest: Some(line) }
    }
}

// How many bytes stand before the first space.
fn first_space(text: &[u8]) -> Option<usize>
    ensures { result ≡ position (λ b. b == 32) text.now }
{
    text.iter().position(|b| *b == b' ')
}

impl<'a> Iterator for Words<'a> {
    type Item = &'a [u8];

    ghost next_gives = { YieldsFirstRef left };

    ghost remaining = { item_count left };

    // The next word, which is removed.
    #[tactic(auto, using(crate::proofs::Cuts::next_word))]
    fn next(&mut self) -> Option<&'a [u8]> {
        let text = self.rest?;
        let end = first_space(text).unwrap_or(text.len());
        self.rest = text.get(end + 1..);
        Some(&text[..end])
    }
}
