// A line of a script, and what it says.
ghost use Rattle.tokens.specs.Left.{left};
ghost use Rattle.tokens.specs.Reads.{ReadsOr};
ghost use Rattle.scripts.specs.Lines.{misuse, command_of, line_of, spoken, said};

use crate::command::Command;
use crate::grammar::rule_named;
use crate::head::head;
use crate::tail::tail;
use std::alloc::Global;
use tokens::error::WordError;
use tokens::words::Words;

// What a line begins with that says nothing.
const REMARK: u8 = b'#';

// The command that words say.
fn command(heap: Global, mut words: Words<'_>) -> Result<Command, WordError>
    ensures { ReadsOr misuse spoken result (command_of (left words.entry)) }
{
    let name = words.next().ok_or(WordError::Malformed)?;
    let rule = rule_named(name).ok_or(WordError::Malformed)?;
    Ok(Command {
        verb: rule.verb,
        head: head(heap, rule.head, &mut words)?,
        tail: tail(heap, rule.ending, words)?,
    })
}

// What a line says, its line feed left out: a command, or nothing.
pub fn parse(heap: Global, line: &[u8]) -> Result<Option<Command>, WordError>
    ensures { ReadsOr misuse said result (line_of line.now) }
{
    match line {
        [] | [REMARK, ..] => Ok(None),
        _ => command(heap, Words::new(line)).map(Some),
    }
}
