// Whether an execution is a process execution.
ghost use Rattle.desk.specs.Calls.{ProcessAnswer};
ghost use Rattle.desk.specs.Left.{OffenceAt};

use crate::accepted::Accepted;
use crate::verdict::{self, Room};
use answers::Answer;

// The index of the first step of an accepted sheet that offends.
fn offence_at(accepted: &Accepted) -> Option<usize>
    ensures { OffenceAt accepted.now.sheet.now result }
{
    dependence::process::first_offence(accepted.step_section(), accepted.components)
}

// The process check: 0 for a process execution, else one past the index of the first step that offends.
pub fn process_check(sheet: &[u8]) -> Answer
    ensures { ProcessAnswer sheet.now result }
{
    let mut room = Room::new();
    let answer = verdict::judge(sheet, &mut room);
    let Answer::Accepted(sizes) = answer else {
        return answer;
    };
    let accepted = Accepted::of(sheet, sizes, &room);
    let offence = offence_at(&accepted);
    Answer::Given(offence.map_or(0, |index| index as u64 + 1))
}
