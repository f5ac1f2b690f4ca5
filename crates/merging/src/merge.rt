// Columns merged into one list of actions: one action after another is taken that heads the columns of all of its components. Which of
// several ready actions is taken first changes no answer: lists with the same columns are related.
ghost use Rattle.std.specs.Prelude.{◌≡◌, ◌*◌, ◌≤◌, length};
ghost use Rattle.sheet.specs.Bounds.{step_size, most_steps};
ghost use Rattle.merging.specs.legible.Reading.{labels_of};
ghost use Rattle.merging.specs.heads.Heads.{Lined, labels_left};
ghost use Rattle.merging.specs.merge.Merging.{MergedInto};

use crate::heads;
use crate::heads::Heads;

// Merges the columns as far as it goes, and writes each action as a step of its own into the section. Gives back the steps written; `left`
// then has the labels that are left.
pub fn merge<'s>(participants: &[u64], left: &mut [&[u8]], section: &'s mut [u8]) -> &'s [u8]
    requires { Lined participants.now (labels_of left.old) × (labels_left (labels_of left.old) ≤ most_steps)
        × (length section.old ≡ step_size * most_steps) }
    ensures { MergedInto participants.now (labels_of left.old) (labels_of left.new) result.now }
{
    let mut waiting = [0u64; 64];
    let ready = heads::show_all(participants, left, &mut waiting);
    let mut heads = Heads {
        participants,
        left,
        waiting: &mut waiting,
        ready,
    };
    // There are no more than 1,024 labels, and a turn takes one.
    for k in 0..1024 {
        let Some(a) = heads.take() else {
            return &section[..8 * k];
        };
        writing::put::<8>(sets::with(0, a), &mut section[8 * k..]);
    }
    section
}
