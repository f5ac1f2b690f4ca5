// The normal form of an execution in one pass over its actions: a table of the last step of each component gives each action its level.
// So the actions are packed into the steps of the normal form, or these steps only counted.
#![tactic(auto)]

mod levels;

ghost use Rattle.std.specs.Prelude.{◌≡◌, ◌≤◌, length, replicate};
ghost use Rattle.systems.specs.Tables.{Tables, InOrder, WordOver};
ghost use Rattle.systems.specs.Checking.{flat};
ghost use Rattle.systems.specs.Independence.{dependent};
ghost use Rattle.traces.specs.Foata.{foata};
ghost use Rattle.sheet.specs.Bounds.{most_in_steps};
ghost use Rattle.sheet.specs.Sections.{steps_in};
ghost use Rattle.dependence.specs.participants.Participants.{Participants, OfSixteen};
ghost use Rattle.normal_form.specs.HoldsFoata.{HoldsFoata};

use crate::levels::Levels;
use numbers::Steps;
use sets::Elements;

// Packs the steps of a step section into `packed`, which comes with zeros and has a place for each action, by the participants of each
// action. Gives back how many steps there are.
pub fn pack(section: &[u8], participants: &[u64], packed: &mut [u64]) -> usize
    requires { OfSixteen participants.now × (length (flat (steps_in section.now)) ≤ length packed.old) }
    ensures { (T : Tables) → InOrder T → Participants T participants.now → WordOver T (flat (steps_in section.now))
        → packed.old ≡ replicate (length packed.old) 0
        → HoldsFoata (dependent T) (flat (steps_in section.now)) packed.new result }
{
    let mut levels = Levels::none();
    let mut steps = 0;
    for step in Steps::of(section) {
        for a in Elements::of(step) {
            let at = levels.take(participants[a as usize]);
            packed[at] = sets::with(packed[at], a);
            steps = steps.max(at + 1);
        }
    }
    steps
}

// How many steps the normal form of a step section has, by the participants of each action. It walks as `pack` does: the walk is two lines, and
// one body for both would need a contract for what is done at each level.
pub fn count_levels(section: &[u8], participants: &[u64]) -> usize
    requires { OfSixteen participants.now × (length (flat (steps_in section.now)) ≤ most_in_steps) }
    ensures { (T : Tables) → InOrder T → Participants T participants.now → WordOver T (flat (steps_in section.now))
        → result ≡ length (foata (dependent T) (flat (steps_in section.now))) }
{
    let mut levels = Levels::none();
    let mut steps = 0;
    for step in Steps::of(section) {
        for a in Elements::of(step) {
            steps = steps.max(levels.take(participants[a as usize]) + 1);
        }
    }
    steps
}
