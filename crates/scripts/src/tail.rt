// What stands behind the arguments of a command.
ghost use Rattle.std.specs.Prelude.{vec_items};
ghost use Rattle.tokens.specs.Left.{left};
ghost use Rattle.tokens.specs.Reads.{Reads};
ghost use Rattle.scripts.specs.Tails.{end_of, lone_of, tail_of};
ghost use Rattle.scripts.specs.Lines.{listed_in};

use crate::command::Tail;
use crate::grammar::Ending;
use crate::item::Item;
use std::alloc::Global;
use tokens::error::WordError;
use tokens::hex::bytes;
use tokens::words::Words;

// The items that all words list.
fn list<T: Item>(heap: Global, mut words: Words<'_>) -> Result<Vec<T>, WordError>
    ensures { Reads vec_items result (T.Item.listed (left words.entry)) }
{
    let mut found = Vec::new(heap);
    // No `for`, since an item takes words of its own behind the first.
    while let Some(first) = words.next() {
        found.push(T::read(first, &mut words).ok_or(WordError::Malformed)?)?;
    }
    Ok(found)
}

// Nothing, where no word is left.
fn end(mut words: Words<'_>) -> Result<Tail, WordError>
    ensures { Reads listed_in result (end_of (left words.entry)) }
{
    match words.next() {
        Some(_) => Err(WordError::Malformed),
        None => Ok(Tail::Nothing),
    }
}

// The bytes that the one word left writes.
fn lone(heap: Global, mut words: Words<'_>) -> Result<Vec<u8>, WordError>
    ensures { Reads vec_items result (lone_of (left words.entry)) }
{
    match (words.next(), words.next()) {
        (Some(word), None) => bytes(heap, word),
        _ => Err(WordError::Malformed),
    }
}

// What the words left say, by the ending that the command has.
pub(crate) fn tail(heap: Global, ending: Ending, words: Words<'_>) -> Result<Tail, WordError>
    ensures { Reads listed_in result (tail_of ending (left words.entry)) }
{
    match ending {
        Ending::Nothing => end(words),
        Ending::Bytes => lone(heap, words).map(Tail::Bytes),
        Ending::Runs => list(heap, words).map(Tail::Runs),
        Ending::Ranges => list(heap, words).map(Tail::Ranges),
        Ending::Pages => list(heap, words).map(Tail::Pages),
    }
}
