// The runs of a selection, told or summed up.
use runs::source::RunSource;
use selections::form::RowSelection;
use std::io;
use std::io::Write;

// The whole runs, each after a space.
pub(crate) fn write_runs<W: Write>(out: &mut W, selection: RowSelection) -> io::Result<()> {
    let mut rest = selection;
    while let Some(run) = rest.next_run() {
        write!(out, " {run}")?;
    }
    Ok(())
}

// How many whole runs there are, and a digest of them.
pub(crate) fn digest(selection: RowSelection) -> (usize, u64) {
    let mut rest = selection;
    let mut runs: usize = 0;
    let mut hash: u64 = 14_695_981_039_346_656_037;
    while let Some(run) = rest.next_run() {
        let word = (run.row_count as u64)
            .wrapping_mul(2)
            .wrapping_add(u64::from(!run.skip));
        hash = (hash ^ word).wrapping_mul(1_099_511_628_211);
        runs = runs.saturating_add(1);
    }
    (runs, hash)
}
