// offset on a run list: one run of skips, what is left of the run where the cut falls, and the runs after it as they are.
ghost use Rattle.std.specs.Prelude.{◌≡◌, ◌≤◌, true, false, ◌++◌, replicate, MatchOption};
ghost use Rattle.rows.specs.Rows.{run_rows, selected_count};
ghost use Rattle.rows.specs.Rules.{offset};
ghost use Rattle.runs.specs.Sinks.{Delivers};
ghost use Rattle.cuts.specs.Cutting.{CutAt};

use refusals::fault::SelectionFault;
use rows::selector::RowSelector;
use runs::convert::convert;
use runs::deliver::deliver;
use runs::pieces::Pieces;
use runs::raw::RawRuns;
use runs::run_list::RunList;
use runs::sink::RowSink;

// The run in which the last selected row to be skipped is passed, the rows skipped before it, and those selected up to its end.
#[derive(Clone, Copy)]
pub(crate) struct Cut {
    run: usize,
    skipped: usize,
    selected: usize,
}

// Rows skipped, rows selected, and runs after them.
#[derive(Clone, Copy)]
pub struct Tail<'a> {
    skipped: usize,
    selected: usize,
    runs: RawRuns<'a>,
}

impl<'a> Pieces for Tail<'a> {
    ghost rows = { λ s. replicate s.skipped false ++ (replicate s.selected true ++ run_rows s.runs.runs.now) };

    fn piece(&mut self) -> Option<RowSelector> {
        if self.skipped > 0 {
            let row_count = self.skipped;
            self.skipped = 0;
            return Some(RowSelector {
                row_count,
                skip: true,
            });
        }
        if self.selected > 0 {
            let row_count = self.selected;
            self.selected = 0;
            return Some(RowSelector {
                row_count,
                skip: false,
            });
        }
        self.runs.piece()
    }
}

// The run that holds the first selected row past the n-th, if any does.
fn find_split(list: RunList, n: usize) -> Option<Cut>
    ensures { MatchOption result (selected_count (run_rows list.entry.runs.now) ≤ n) (λ c. CutAt n list.entry.runs.now c.run c.skipped c.selected) }
{
    let runs = list.runs();
    let mut skipped = 0;
    let mut selected = 0;
    for (run, selector) in runs.iter().enumerate() {
        if selector.skip {
            skipped += selector.row_count;
            continue;
        }
        selected += selector.row_count;
        if selected > n {
            return Some(Cut {
                run,
                skipped,
                selected,
            });
        }
    }
    None
}

// The same as `offset` over any source, by the runs of the list.
pub fn offset_runs<K: RowSink>(list: RunList, n: usize, out: &mut K) -> Result<(), SelectionFault>
    ensures { Delivers K.sink out.old (offset n (run_rows list.entry.runs.now)) result out.new }
{
    if n == 0 {
        return convert(list, out);
    }
    let runs = list.runs();
    let Some(split) = find_split(list, n) else {
        return convert(RunList::empty(), out);
    };
    let rest = Tail {
        skipped: split.skipped + n,
        selected: split.selected - n,
        runs: RawRuns::new(&runs[split.run + 1..]),
    };
    deliver(rest, out)
}
