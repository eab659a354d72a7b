// The arguments of a command, by their kinds.
ghost use Rattle.std.specs.Prelude.{◌≡◌, vec_items};
ghost use Rattle.scripts.specs.Args.{before, slot_of, loaded_of, place_of, arg_of, head_of};
ghost use Rattle.tokens.specs.Left.{left};
ghost use Rattle.tokens.specs.Reads.{Reads};

use crate::command::{Arg, Place};
use crate::grammar::Kind;
use std::alloc::Global;
use tokens::error::WordError;
use tokens::number::number;
use tokens::words::Words;

// How many slots there are.
const SLOTS: usize = 16;

fn slot(word: &[u8]) -> Option<usize>
    ensures { result ≡ slot_of word.now }
{
    number(word).filter(|n| *n < SLOTS)
}

// A slot, or a dash where all rows are loaded.
fn loaded(word: &[u8]) -> Option<Option<usize>>
    ensures { result ≡ loaded_of word.now }
{
    match word {
        b"-" => Some(None),
        _ => slot(word).map(Some),
    }
}

// A place: a dash, or a letter and the size in the next word.
fn place(word: &[u8], words: &mut Words<'_>) -> Option<Place>
    ensures { before (left words.new) result ≡ place_of word.now (left words.old) }
{
    match word {
        b"-" => Some(Place::Natural),
        b"r" => number(words.next()?).map(Place::Runs),
        b"m" => number(words.next()?).map(Place::Mask),
        _ => None,
    }
}

// The next argument.
fn arg(kind: Kind, words: &mut Words<'_>) -> Option<Arg>
    ensures { before (left words.new) result ≡ arg_of kind (left words.old) }
{
    let word = words.next()?;
    match kind {
        Kind::Slot => slot(word).map(Arg::Slot),
        Kind::Number => number(word).map(Arg::Number),
        Kind::Place => place(word, words).map(Arg::Place),
        Kind::Loaded => loaded(word).map(Arg::Loaded),
    }
}

// An argument for each kind.
pub(crate) fn head(
    heap: Global,
    kinds: &[Kind],
    words: &mut Words<'_>,
) -> Result<Vec<Arg>, WordError>
    ensures { Reads (λ args. (vec_items args, left words.new)) result (head_of kinds.now (left words.old)) }
{
    let mut args = Vec::new(heap);
    for kind in kinds {
        args.push(arg(*kind, words).ok_or(WordError::Malformed)?)?;
    }
    Ok(args)
}
