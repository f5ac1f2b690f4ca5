// A sheet restated in normal form, written into lent bytes.
ghost use Rattle.desk.specs.Calls.{RestateAnswer};

use crate::accepted::Accepted;
use crate::restatable::Restatable;
use crate::verdict::{self, Room};
use answers::Answer;

// Restates a sheet in normal form into the output: 13 only for an accepted sheet whose restated bytes do not fit. A refused call
// leaves the output as it came, and bytes behind the restated sheet keep their values.
pub fn restate(sheet: &[u8], out: &mut [u8]) -> Answer
    ensures { RestateAnswer sheet.now out.old result out.new }
{
    let read = reading::read_trailer(sheet);
    let Answer::Accepted(sizes) = read else {
        return read;
    };
    let mut room = Room::new();
    let judged = verdict::judge_tables(sheet, sizes, &mut room);
    let Answer::Accepted(known) = judged else {
        return judged;
    };
    let accepted = Accepted::of(sheet, known, &room);
    let mut participants = [0u64; 64];
    let restatable = Restatable::of(&accepted, &mut participants);
    restatable.restate_steps(accepted.step_section(), out)
}
