// The last step of each component, kept in a table: by it an action finds its level, and its components are entered one past that.
ghost use Rattle.std.specs.Prelude.{◌≡◌, ◌^◌, ◌<◌, replicate};
ghost use Rattle.sheet.specs.Bounds.{most_components};
ghost use Rattle.normal_form.specs.levels.Levels.{LevelTaken, Room, most_of_word};

use sets::Elements;

// For each component one past its last step.
#[derive(Drop)]
pub struct Levels {
    last: [usize; 16],
}

impl Levels {
    // There are no steps yet.
    pub fn none() -> Levels
        ensures { result.last ≡ replicate most_components 0 }
    {
        Levels { last: [0; 16] }
    }

    // Gives back the level of the next action, the index of the first step that it may stand in: behind the last step of each of its
    // participants. One past it is entered for them.
    pub fn take(&mut self, participants: u64) -> usize
        requires { (participants < 2 ^ most_components) × Room most_of_word self.old.last 1 }
        ensures { LevelTaken participants self.old.last self.new.last result }
    {
        let mut level = 0;
        for j in Elements::of(participants) {
            level = level.max(self.last[j as usize]);
        }
        for i in Elements::of(participants) {
            self.last[i as usize] = level + 1;
        }
        level
    }
}
