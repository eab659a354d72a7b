// The grammar of commands: for each its name, the kinds of its arguments, and what stands behind them.
ghost use Rattle.std.specs.Prelude.{◌≡◌, map};
ghost use Rattle.std.specs.Option.{option_map};
ghost use Rattle.scripts.specs.Grammar.{entry_of, entry_named, grammar};

use crate::command::Verb;
use tokens::word::is;

// What an argument has to be.
#[derive(Clone, Copy)]
pub(crate) enum Kind {
    Slot,
    Number,
    Place,
    Loaded,
}

// What stands behind the arguments.
#[derive(Clone, Copy)]
pub(crate) enum Ending {
    Nothing,
    Bytes,
    Runs,
    Ranges,
    Pages,
}

#[derive(Clone, Copy)]
pub(crate) struct Rule {
    pub(crate) name: &'static [u8],
    pub(crate) verb: Verb,
    pub(crate) head: &'static [Kind],
    pub(crate) ending: Ending,
}

const RULES: [Rule; 33] = [
    Rule {
        name: b"reset",
        verb: Verb::Reset,
        head: &[],
        ending: Ending::Nothing,
    },
    Rule {
        name: b"runs",
        verb: Verb::Runs,
        head: &[Kind::Slot, Kind::Number],
        ending: Ending::Runs,
    },
    Rule {
        name: b"mask",
        verb: Verb::Mask,
        head: &[Kind::Slot, Kind::Number, Kind::Number],
        ending: Ending::Bytes,
    },
    Rule {
        name: b"ranges",
        verb: Verb::Ranges,
        head: &[Kind::Slot, Kind::Number, Kind::Number],
        ending: Ending::Ranges,
    },
    Rule {
        name: b"copy",
        verb: Verb::Copy,
        head: &[Kind::Slot, Kind::Slot],
        ending: Ending::Nothing,
    },
    Rule {
        name: b"convert",
        verb: Verb::Convert,
        head: &[Kind::Slot, Kind::Slot, Kind::Place],
        ending: Ending::Nothing,
    },
    Rule {
        name: b"andthen",
        verb: Verb::AndThen,
        head: &[Kind::Slot, Kind::Slot, Kind::Slot, Kind::Place],
        ending: Ending::Nothing,
    },
    Rule {
        name: b"and",
        verb: Verb::And,
        head: &[Kind::Slot, Kind::Slot, Kind::Slot, Kind::Place],
        ending: Ending::Nothing,
    },
    Rule {
        name: b"or",
        verb: Verb::Or,
        head: &[Kind::Slot, Kind::Slot, Kind::Slot, Kind::Place],
        ending: Ending::Nothing,
    },
    Rule {
        name: b"join",
        verb: Verb::Join,
        head: &[Kind::Slot, Kind::Slot, Kind::Slot, Kind::Place],
        ending: Ending::Nothing,
    },
    Rule {
        name: b"split",
        verb: Verb::Split,
        head: &[
            Kind::Slot,
            Kind::Slot,
            Kind::Number,
            Kind::Place,
            Kind::Place,
        ],
        ending: Ending::Nothing,
    },
    Rule {
        name: b"offset",
        verb: Verb::Offset,
        head: &[Kind::Slot, Kind::Number, Kind::Place],
        ending: Ending::Nothing,
    },
    Rule {
        name: b"limit",
        verb: Verb::Limit,
        head: &[Kind::Slot, Kind::Number, Kind::Place],
        ending: Ending::Nothing,
    },
    Rule {
        name: b"trim",
        verb: Verb::Trim,
        head: &[Kind::Slot, Kind::Place],
        ending: Ending::Nothing,
    },
    Rule {
        name: b"rows",
        verb: Verb::Rows,
        head: &[Kind::Slot],
        ending: Ending::Nothing,
    },
    Rule {
        name: b"bytes",
        verb: Verb::Bytes,
        head: &[Kind::Slot, Kind::Number],
        ending: Ending::Nothing,
    },
    Rule {
        name: b"count",
        verb: Verb::Count,
        head: &[Kind::Slot],
        ending: Ending::Nothing,
    },
    Rule {
        name: b"sum",
        verb: Verb::Sum,
        head: &[Kind::Slot],
        ending: Ending::Nothing,
    },
    Rule {
        name: b"eq",
        verb: Verb::Eq,
        head: &[Kind::Slot, Kind::Slot],
        ending: Ending::Nothing,
    },
    Rule {
        name: b"strategy",
        verb: Verb::Strategy,
        head: &[Kind::Slot, Kind::Number],
        ending: Ending::Nothing,
    },
    Rule {
        name: b"scan",
        verb: Verb::Scan,
        head: &[Kind::Slot, Kind::Number],
        ending: Ending::Pages,
    },
    Rule {
        name: b"pagerows",
        verb: Verb::PageRows,
        head: &[Kind::Slot, Kind::Number, Kind::Number],
        ending: Ending::Pages,
    },
    Rule {
        name: b"view",
        verb: Verb::View,
        head: &[Kind::Slot, Kind::Number, Kind::Number],
        ending: Ending::Nothing,
    },
    Rule {
        name: b"nth",
        verb: Verb::Nth,
        head: &[Kind::Slot, Kind::Number],
        ending: Ending::Nothing,
    },
    Rule {
        name: b"open",
        verb: Verb::Open,
        head: &[Kind::Slot],
        ending: Ending::Nothing,
    },
    Rule {
        name: b"pos",
        verb: Verb::Pos,
        head: &[Kind::Slot],
        ending: Ending::Nothing,
    },
    Rule {
        name: b"next",
        verb: Verb::Next,
        head: &[Kind::Slot],
        ending: Ending::Nothing,
    },
    Rule {
        name: b"give",
        verb: Verb::Give,
        head: &[Kind::Slot, Kind::Number],
        ending: Ending::Nothing,
    },
    Rule {
        name: b"chunk",
        verb: Verb::Chunk,
        head: &[Kind::Slot, Kind::Number, Kind::Loaded],
        ending: Ending::Nothing,
    },
    Rule {
        name: b"batch",
        verb: Verb::Batch,
        head: &[
            Kind::Slot,
            Kind::Number,
            Kind::Loaded,
            Kind::Number,
            Kind::Number,
        ],
        ending: Ending::Nothing,
    },
    Rule {
        name: b"shots",
        verb: Verb::Shots,
        head: &[
            Kind::Slot,
            Kind::Number,
            Kind::Loaded,
            Kind::Number,
            Kind::Number,
        ],
        ending: Ending::Nothing,
    },
    Rule {
        name: b"fillmask",
        verb: Verb::FillMask,
        head: &[
            Kind::Slot,
            Kind::Number,
            Kind::Number,
            Kind::Number,
            Kind::Number,
        ],
        ending: Ending::Nothing,
    },
    Rule {
        name: b"fillruns",
        verb: Verb::FillRuns,
        head: &[
            Kind::Slot,
            Kind::Number,
            Kind::Number,
            Kind::Number,
            Kind::Number,
        ],
        ending: Ending::Nothing,
    },
];

// The first of the rules with this name.
fn among(rules: &[Rule], name: &[u8]) -> Option<Rule>
    ensures { option_map entry_of result ≡ entry_named name.now (map entry_of rules.now) }
{
    rules.iter().find(|rule| is(name, rule.name)).copied()
}

// The rule of the command with this name.
pub(crate) fn rule_named(name: &[u8]) -> Option<Rule>
    ensures { option_map entry_of result ≡ entry_named name.now grammar }
{
    among(&RULES, name)
}
