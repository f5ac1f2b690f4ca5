// The calls of the desk for C and for languages that call C: each hands on to the call of the same name in the crate oatmist, and states its
// clauses again. A slice is passed as a pointer and a length (include/oatmist.h).
#![tactic(auto)]

ghost use Rattle.oatmist.specs.Calls.{CheckForC, EndSetsForC, ProcessForC, FigureForC, StuckForC, RestateForC, ReportForC};
ghost use Rattle.oatmist.specs.Calls.{SameWorkForC, WinnerForC, LeanerForC, RowsForC, ColumnsForC, VersionTold};

// The verdict: n, m, T and S of an accepted sheet.
#[unsafe(no_mangle)]
pub extern "C" fn oatmist_check(sheet: &[u8], answer: &mut [u64]) -> u64
    ensures { CheckForC sheet.now result answer.old answer.new }
{
    oatmist::oatmist_check(sheet, answer)
}

// The end sets of sixteen components, 0 for those that the sheet does not have.
#[unsafe(no_mangle)]
pub extern "C" fn oatmist_end_sets(sheet: &[u8], ends: &mut [u64]) -> u64
    ensures { EndSetsForC sheet.now result ends.old ends.new }
{
    oatmist::oatmist_end_sets(sheet, ends)
}

// The process check: 0 for yes, or one past the index of the first step that offends.
#[unsafe(no_mangle)]
pub extern "C" fn oatmist_process(sheet: &[u8], answer: &mut [u64]) -> u64
    ensures { ProcessForC sheet.now result answer.old answer.new }
{
    oatmist::oatmist_process(sheet, answer)
}

// Restating: how many bytes were written to `out`.
#[unsafe(no_mangle)]
pub extern "C" fn oatmist_restate(sheet: &[u8], out: &mut [u8], answer: &mut [u64]) -> u64
    ensures { RestateForC sheet.now out.old result out.new answer.old answer.new }
{
    oatmist::oatmist_restate(sheet, out, answer)
}

// Same work: 1 for yes, 0 for no.
#[unsafe(no_mangle)]
pub extern "C" fn oatmist_same_work(first: &[u8], second: &[u8], answer: &mut [u64]) -> u64
    ensures { SameWorkForC first.now second.now result answer.old answer.new }
{
    oatmist::oatmist_same_work(first, second, answer)
}

// Which sheet is leaner: 0 for the first, 1 for the second.
#[unsafe(no_mangle)]
pub extern "C" fn oatmist_winner(first: &[u8], second: &[u8], answer: &mut [u64]) -> u64
    ensures { WinnerForC first.now second.now result answer.old answer.new }
{
    oatmist::oatmist_winner(first, second, answer)
}

// The leaner answer: `part` becomes the step section of the leaner sheet, in the caller's own bytes; an empty part for a refused pair.
#[unsafe(no_mangle)]
pub extern "C" fn oatmist_leaner<'a>(first: &'a [u8], second: &'a [u8], part: &mut &'a [u8])
    ensures { LeanerForC first.now second.now part.new.now }
{
    oatmist::oatmist_leaner(first, second, part);
}

// The concurrency figure.
#[unsafe(no_mangle)]
pub extern "C" fn oatmist_figure(sheet: &[u8], answer: &mut [u64]) -> u64
    ensures { FigureForC sheet.now result answer.old answer.new }
{
    oatmist::oatmist_figure(sheet, answer)
}

// A5: stuck: 1 where the end sets enable no action, else 0.
#[unsafe(no_mangle)]
pub extern "C" fn oatmist_stuck(sheet: &[u8], answer: &mut [u64]) -> u64
    ensures { StuckForC sheet.now result answer.old answer.new }
{
    oatmist::oatmist_stuck(sheet, answer)
}

// The text that the program prints: it stands in front of `out`, and its length is told.
#[unsafe(no_mangle)]
pub extern "C" fn oatmist_report(sheet: &[u8], out: &mut [u8], answer: &mut [u64]) -> u64
    ensures { ReportForC sheet.now out.old result out.new answer.old answer.new }
{
    oatmist::oatmist_report(sheet, out, answer)
}

// B6: a product given by rows: how many bytes of its sheet were written to `out`.
#[unsafe(no_mangle)]
pub extern "C" fn oatmist_rows(product: &[u8], out: &mut [u8], answer: &mut [u64]) -> u64
    ensures { RowsForC product.now out.old result out.new answer.old answer.new }
{
    oatmist::oatmist_rows(product, out, answer)
}

// V3: an execution given by columns over the tables of a sheet: how many bytes of the restated sheet were written to `out`.
#[unsafe(no_mangle)]
pub extern "C" fn oatmist_columns(
    sheet: &[u8],
    columns: &[u8],
    out: &mut [u8],
    answer: &mut [u64],
) -> u64
    ensures { ColumnsForC sheet.now columns.now out.old result out.new
        answer.old answer.new }
{
    oatmist::oatmist_columns(sheet, columns, out, answer)
}

// O10: the version of the library as a number that grows: 10000 times its first part, 100 times the second, and the third.
#[unsafe(no_mangle)]
pub extern "C" fn oatmist_version() -> u64
    ensures { VersionTold result }
{
    oatmist::oatmist_version()
}
