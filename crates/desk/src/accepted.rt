// An accepted sheet, with what judging told of it.
ghost use Rattle.std.specs.Prelude.{◌≡◌, ◌*◌, ◌≤◌, length};
ghost use Rattle.systems.specs.Checking.{flat};
ghost use Rattle.sheet.specs.Bounds.{step_size, most_steps};
ghost use Rattle.sheet.specs.Layout.{front, tables, steps, step_count};
ghost use Rattle.sheet.specs.Sections.{steps_in};
ghost use Rattle.answers.specs.declared.Answer.TheVariants.{Accepted as AcceptedAnswer};
ghost use Rattle.answers.specs.Leaner.{step_section};
ghost use Rattle.machine.specs.Runs.{SystemOf};
ghost use Rattle.desk.specs.AcceptedSheet.{OverSheet, JudgedSheet};
ghost use Rattle.desk.specs.Left.{Judged};

use crate::verdict::Room;
use answers::Sizes;
use sheet::Component;

// A sheet that is accepted, the sizes that its trailer tells, its components, and the end set of each.
#[derive(Clone, Copy)]
pub struct Accepted<'a> {
    pub sheet: &'a [u8],
    pub sizes: Sizes,
    pub components: &'a [Component],
    pub ends: &'a [u64],
    pub ghost judged: { JudgedSheet sheet.now sizes components.now ends.now },
}

impl<'a> Accepted<'a> {
    // The sheet, by the sizes and the room that judging it left.
    pub fn of(sheet: &'a [u8], sizes: Sizes, room: &'a Room) -> Accepted<'a>
        requires { Judged sheet.now (AcceptedAnswer sizes) room.now }
        ensures { OverSheet sheet.now result.sheet.now × (result.sizes ≡ sizes) }
    {
        Accepted {
            sheet,
            sizes,
            components: &room.components[..sizes.n],
            ends: &room.held[..sizes.n],
        }
    }

    // The bytes before its steps.
    pub fn front(&self) -> &'a [u8]
        ensures { result.now ≡ front self.now.sheet.now }
    {
        &self.sheet[..self.sizes.s]
    }

    // The bytes of its transitions: with its components they are the system that runs.
    pub fn transition_section(&self) -> &'a [u8]
        ensures { SystemOf (tables self.now.sheet.now) self.now.sizes self.now.components.now result.now }
    {
        &self.sheet[self.sizes.t..self.sizes.s]
    }

    // The bytes of its steps.
    pub fn step_section(&self) -> &'a [u8]
        ensures bytes { result.now ≡ step_section self.now.sheet.now }
        ensures steps { steps_in result.now ≡ steps self.now.sheet.now }
        ensures short { length result.now ≤ step_size * most_steps }
    {
        reading::step_section(self.sheet, self.sizes.s)
    }

    // How many steps it has.
    pub fn step_count(&self) -> usize
        ensures { result ≡ step_count self.now.sheet.now }
    {
        self.step_section().len() / 8
    }

    // How many actions its steps have together.
    pub fn actions(&self) -> u64
        ensures { result ≡ length (flat (steps self.now.sheet.now)) }
    {
        reading::actions_in(self.step_section())
    }
}
