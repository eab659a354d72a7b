// The commands, and what carries each of them out.
ghost use Rattle.script.specs.Kept.{Kept};

use crate::args::Args;
use crate::fill::{mask_drawn, runs_drawn};
use crate::make::{mask_of, ranges_of, runs_of};
use crate::no::No;
use crate::session::Session;
use scripts::command::Verb;
use std::io::Write;
use stored::operation::Operation;

impl<W: Write + Drop> Session<W> {
    // Commands of an opened selection come with readers, and are misuse until then.
    pub(crate) fn obey(&mut self, verb: Verb, args: Args<'_>) -> Result<(), No>
        ensures { Kept result self.old.slots self.new.slots }
    {
        match verb {
            Verb::Reset => self.reset(),
            Verb::Runs => self.put(args, runs_of(self.heap, args)?),
            Verb::Mask => self.put(args, mask_of(self.heap, args)?),
            Verb::Ranges => self.put(args, ranges_of(self.heap, args)?),
            Verb::FillMask => self.put(args, mask_drawn(self.heap, args)?),
            Verb::FillRuns => self.put(args, runs_drawn(self.heap, args)?),
            Verb::Copy => self.copy(args),
            Verb::Convert => self.convert(args),
            Verb::Trim => self.trim(args),
            Verb::Offset => self.cut(args, |of, n| Operation::Offset(of, n)),
            Verb::Limit => self.cut(args, |of, n| Operation::Limit(of, n)),
            Verb::AndThen => self.two(args, |a, b| Operation::Narrow(a, b)),
            Verb::And => self.two(args, |a, b| Operation::And(a, b)),
            Verb::Or => self.two(args, |a, b| Operation::Or(a, b)),
            Verb::Join => self.two(args, |a, b| Operation::Join(a, b)),
            Verb::Split => self.split(args),
            Verb::Rows => self.tell_rows(args),
            Verb::Bytes => self.tell_bytes(args),
            Verb::Count => self.tell_count(args),
            Verb::Sum => self.tell_sum(args),
            Verb::Eq => self.tell_equal(args),
            Verb::Strategy => self.tell_strategy(args),
            Verb::Nth => self.tell_nth(args),
            Verb::Scan => self.tell_scan(args),
            Verb::PageRows => self.tell_page_rows(args),
            _ => Err(No::Misuse),
        }
    }
}
