// An execution given by columns, one for each component, restated as a sheet (document 02, request 3).
#![tactic(auto)]

mod heads;
mod legible;
mod merge;

ghost use Rattle.columns.specs.Calls.{ColumnsAnswer};
ghost use Rattle.merging.specs.legible.Reading.{labels_of};
ghost use Rattle.merging.specs.Words.{WordGiven, WordAnswer, SomeColumns, MergedAnswer};

use answers::{Answer, Refusal};
use desk::accepted::Accepted;
use desk::restatable::Restatable;
use desk::verdict::{self, Room};

// 19 where the actions of the section, each a step of its own, cannot be executed over the tables of an accepted sheet; else the sheet with
// these steps is restated into the output, or 13 where it does not fit.
fn restate_word(restatable: &Restatable, section: &[u8], out: &mut [u8]) -> Answer
    requires { WordGiven restatable.now.accepted.now.sheet.now section.now }
    ensures { WordAnswer restatable.now.accepted.now.sheet.now section.now out.old result out.new }
{
    let sheet = restatable.accepted;
    let system = sheet.transition_section();
    let mut held = [0u64; 16];
    let run = machine::run_from_start(system, section, sheet.sizes, sheet.components, &mut held);
    let Answer::Accepted(_) = run else {
        return answers::refuse(Refusal::NoExecution);
    };
    restatable.restate_steps(section, out)
}

// 19 and 13 of columns that were read for an accepted sheet, or the restated sheet that has them. A function of its own, with its arrays in front:
// beside the reading of the columns they were filled with zeros twice.
fn merge_read(accepted: &Accepted, left: &mut [&[u8]], out: &mut [u8]) -> Answer
    requires { SomeColumns accepted.now.sheet.now (labels_of left.old) }
    ensures { MergedAnswer accepted.now.sheet.now (labels_of left.old) out.old result out.new }
{
    let mut participants = [0u64; 64];
    let mut section = [0u8; 8192];
    let restatable = Restatable::of(accepted, &mut participants);
    let steps = merge::merge(restatable.participants, left, &mut section);
    if heads::some_left(left) {
        return answers::refuse(Refusal::NoExecution);
    }
    restate_word(&restatable, steps, out)
}

// 18, 19 and 13 of the columns for an accepted sheet, or the restated sheet that has them.
fn merge_columns(accepted: &Accepted, columns: &[u8], out: &mut [u8]) -> Answer
    ensures { ColumnsAnswer accepted.now.sheet.now columns.now out.old result out.new }
{
    let components = accepted.components;
    let mut places: [&[u8]; 16] = [&[]; 16];
    let left = &mut places[..components.len()];
    let read = legible::read_columns(columns, accepted.sizes, components, left);
    let Answer::Accepted(_) = read else {
        return read;
    };
    merge_read(accepted, left, out)
}

// V3, O9: restates the execution whose columns are given over the tables of a sheet, and gives how many bytes were written. The refusals
// are those of the sheet, then 18 and 19 of the columns, and last 13. A refused call leaves the output as it came, and bytes behind the
// restated sheet keep their values.
pub fn columns(sheet: &[u8], columns: &[u8], out: &mut [u8]) -> Answer
    ensures { ColumnsAnswer sheet.now columns.now out.old result out.new }
{
    let read = reading::read_trailer(sheet);
    let Answer::Accepted(sizes) = read else {
        return read;
    };
    let mut room = Room::new();
    let judged = verdict::judge_tables(sheet, sizes, &mut room);
    let Answer::Accepted(known) = judged else {
        return judged;
    };
    let accepted = Accepted::of(sheet, known, &room);
    merge_columns(&accepted, columns, out)
}
