// Items that are listed behind the arguments: runs, ranges and pages.
ghost use Rattle.std.specs.Prelude.{◌≡◌, ◌≤◌, List, [], ◌∷◌, length, Some, Option, refl};
ghost use Rattle.tokens.specs.Words.{Word, added, signed_of};
ghost use Rattle.tokens.specs.Left.{left};
ghost use Rattle.scripts.specs.Tails.{run_of, runs_of, range_of, ranges_of, fitting, page_of, pages_of};

use pages::page::PageLocation;
use rows::range::RowRange;
use rows::selector::RowSelector;
use tokens::number::{number, signed};
use tokens::word::behind;
use tokens::words::Words;

pub(crate) trait Item: Copy {
    // the items that words list
    ghost listed: { List Word → Option (List Self) };

    // no words list no items
    ghost none: { listed [] ≡ Some [] };

    // The item that a word says with some of those after it, which are removed.
    fn read(first: &[u8], words: &mut Words<'_>) -> Option<Self>
        ensures item { listed (first.now ∷ left words.old) ≡ added result (listed (left words.new)) }
        ensures fewer { length (left words.new) ≤ length (left words.old) };
}

// A run of selected rows behind a plus sign, of skipped rows behind a minus sign.
fn run(word: &[u8]) -> Option<RowSelector>
    ensures { result ≡ run_of word.now }
{
    let (digits, skip) = match behind(b'+', word) {
        Some(digits) => (digits, false),
        None => (behind(b'-', word)?, true),
    };
    Some(RowSelector {
        row_count: number(digits)?,
        skip,
    })
}

fn range(start: &[u8], end: &[u8]) -> Option<RowRange>
    ensures { result ≡ range_of start.now end.now }
{
    Some(RowRange {
        start: number(start)?,
        end: number(end)?,
    })
}

// A signed number of 64 bits.
fn long(word: &[u8]) -> Option<i64>
    ensures { result ≡ fitting 63 (signed_of word.now) }
{
    i64::try_from(signed(word)?).ok()
}

fn page(offset: &[u8], size: &[u8], first: &[u8]) -> Option<PageLocation>
    ensures { result ≡ page_of offset.now size.now first.now }
{
    Some(PageLocation {
        offset: long(offset)?,
        compressed_page_size: i32::try_from(signed(size)?).ok()?,
        first_row_index: long(first)?,
    })
}

impl Item for RowSelector {
    ghost listed = { runs_of };

    ghost none = { refl };

    fn read(first: &[u8], _words: &mut Words<'_>) -> Option<RowSelector> {
        run(first)
    }
}

impl Item for RowRange {
    ghost listed = { ranges_of };

    ghost none = { refl };

    fn read(first: &[u8], words: &mut Words<'_>) -> Option<RowRange> {
        range(first, words.next()?)
    }
}

impl Item for PageLocation {
    ghost listed = { pages_of };

    ghost none = { refl };

    fn read(first: &[u8], words: &mut Words<'_>) -> Option<PageLocation> {
        let second = words.next()?;
        let third = words.next()?;
        page(first, second, third)
    }
}
