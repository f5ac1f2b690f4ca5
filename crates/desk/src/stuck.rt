// A5: whether a sheet is stuck: its end sets enable no action.
ghost use Rattle.std.specs.Prelude.{◌≡◌};
ghost use Rattle.answers.specs.Stuck.{stuck};
ghost use Rattle.desk.specs.Calls.{StuckAnswer};

use crate::accepted::Accepted;
use crate::restatable::Restatable;
use crate::verdict::{self, Room};
use answers::Answer;

// Whether an accepted sheet is stuck.
pub fn stuck_at(restatable: &Restatable) -> bool
    ensures { result ≡ stuck restatable.now.accepted.now.sheet.now }
{
    let accepted = restatable.accepted;
    machine::stuck::none_enabled(
        accepted.transition_section(),
        accepted.sizes.m,
        restatable.participants,
        accepted.ends,
    )
}

// 1 for a stuck sheet, 0 for one that is not.
pub fn is_stuck(sheet: &[u8]) -> Answer
    ensures { StuckAnswer sheet.now result }
{
    let mut room = Room::new();
    let answer = verdict::judge(sheet, &mut room);
    let Answer::Accepted(sizes) = answer else {
        return answer;
    };
    let accepted = Accepted::of(sheet, sizes, &room);
    let mut participants = [0u64; 64];
    let restatable = Restatable::of(&accepted, &mut participants);
    Answer::Given(u64::from(stuck_at(&restatable)))
}
