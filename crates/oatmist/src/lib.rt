// The face of the desk: every public call, and the same calls as C and languages that call C have them: the values of an answer go to an
// array that the caller lends. The static library of the crate oatmist_c hands the latter on, each under its name (include/oatmist.h).
#![tactic(auto)]

mod convention;

ghost use Rattle.oatmist.specs.Calls.{CheckForC, EndSetsForC, ProcessForC, FigureForC, StuckForC, RestateForC, ReportForC};
ghost use Rattle.oatmist.specs.Calls.{SameWorkForC, WinnerForC, LeanerForC, RowsForC, ColumnsForC, VersionTold};

pub use answers::{Answer, EndSets, Refusal, Sizes};
pub use comparing::{leaner, same_work, winner};
pub use desk::figure::figure_of;
pub use desk::process::process_check;
pub use desk::restate::restate;
pub use desk::stuck::is_stuck;
pub use desk::verdict::{check, end_sets};
pub use merging::columns;
pub use report::report;
pub use rows::rows;

// The verdict: n, m, T and S of an accepted sheet.
pub fn oatmist_check(sheet: &[u8], answer: &mut [u64]) -> u64
    ensures { CheckForC sheet.now result answer.old answer.new }
{
    convention::hand(check(sheet), answer)
}

// The end sets of sixteen components, 0 for those that the sheet does not have.
pub fn oatmist_end_sets(sheet: &[u8], ends: &mut [u64]) -> u64
    ensures { EndSetsForC sheet.now result ends.old ends.new }
{
    let ended = end_sets(sheet);
    let Answer::Accepted(_) = ended.answer else {
        return convention::hand(ended.answer, ends);
    };
    convention::fill(&ended.sets, ends);
    0
}

// The process check: 0 for yes, or one past the index of the first step that offends.
pub fn oatmist_process(sheet: &[u8], answer: &mut [u64]) -> u64
    ensures { ProcessForC sheet.now result answer.old answer.new }
{
    convention::hand(process_check(sheet), answer)
}

// Restating: how many bytes were written to `out`.
pub fn oatmist_restate(sheet: &[u8], out: &mut [u8], answer: &mut [u64]) -> u64
    ensures { RestateForC sheet.now out.old result out.new answer.old answer.new }
{
    convention::hand(restate(sheet, out), answer)
}

// Same work: 1 for yes, 0 for no.
pub fn oatmist_same_work(first: &[u8], second: &[u8], answer: &mut [u64]) -> u64
    ensures { SameWorkForC first.now second.now result answer.old answer.new }
{
    convention::hand(same_work(first, second), answer)
}

// Which sheet is leaner: 0 for the first, 1 for the second.
pub fn oatmist_winner(first: &[u8], second: &[u8], answer: &mut [u64]) -> u64
    ensures { WinnerForC first.now second.now result answer.old answer.new }
{
    convention::hand(winner(first, second), answer)
}

// The leaner answer: `part` becomes the step section of the leaner sheet, in the caller's own bytes; an empty part for a refused pair.
pub fn oatmist_leaner<'a>(first: &'a [u8], second: &'a [u8], part: &mut &'a [u8])
    ensures { LeanerForC first.now second.now part.new.now }
{
    *part = leaner(first, second);
}

// The concurrency figure.
pub fn oatmist_figure(sheet: &[u8], answer: &mut [u64]) -> u64
    ensures { FigureForC sheet.now result answer.old answer.new }
{
    convention::hand(figure_of(sheet), answer)
}

// A5: stuck: 1 where the end sets enable no action, else 0.
pub fn oatmist_stuck(sheet: &[u8], answer: &mut [u64]) -> u64
    ensures { StuckForC sheet.now result answer.old answer.new }
{
    convention::hand(is_stuck(sheet), answer)
}

// The text that the program prints: it stands in front of `out`, and its length is told.
pub fn oatmist_report(sheet: &[u8], out: &mut [u8], answer: &mut [u64]) -> u64
    ensures { ReportForC sheet.now out.old result out.new answer.old answer.new }
{
    convention::hand(report(sheet, out), answer)
}

// B6: a product given by rows: how many bytes of its sheet were written to `out`.
pub fn oatmist_rows(product: &[u8], out: &mut [u8], answer: &mut [u64]) -> u64
    ensures { RowsForC product.now out.old result out.new answer.old answer.new }
{
    convention::hand(rows(product, out), answer)
}

// V3: an execution given by columns over the tables of a sheet: how many bytes of the restated sheet were written to `out`.
pub fn oatmist_columns(sheet: &[u8], columns: &[u8], out: &mut [u8], answer: &mut [u64]) -> u64
    ensures { ColumnsForC sheet.now columns.now out.old result out.new
        answer.old answer.new }
{
    convention::hand(merging::columns(sheet, columns, out), answer)
}

// O10: the version of the library as a number that grows: 10000 times its first part, 100 times the second, and the third.
pub fn version() -> u64
    ensures { VersionTold result }
{
    20000
}

// The same for C.
pub fn oatmist_version() -> u64
    ensures { VersionTold result }
{
    version()
}
