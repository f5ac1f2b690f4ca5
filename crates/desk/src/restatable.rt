// An accepted sheet that can be restated.
ghost use Rattle.std.specs.Prelude.{◌≡◌, ◌≤◌, length, replicate};
ghost use Rattle.systems.specs.Checking.{flat};
ghost use Rattle.sheet.specs.Layout.{tables, steps};
ghost use Rattle.sheet.specs.Bounds.{most_actions, most_in_steps};
ghost use Rattle.sheet.specs.Sections.{steps_in};
ghost use Rattle.answers.specs.Restated.{normal, with_steps, restated_steps};
ghost use Rattle.dependence.specs.participants.Participants.{Participants};
ghost use Rattle.desk.specs.AcceptedSheet.{OverSheet, SectionRuns};
ghost use Rattle.desk.specs.Left.{PlacesFor, RestatedInto};

use crate::accepted::Accepted;
use answers::{Answer, Refusal};
use dependence::participants::participants_of;

// An accepted sheet with the components of each of its actions: what it takes to put its actions into the steps of the normal form.
#[derive(Clone, Copy)]
pub struct Restatable<'a> {
    pub accepted: &'a Accepted<'a>,
    pub participants: &'a [u64],
    pub ghost entered: { Participants (tables accepted.now.sheet.now) participants.now },
}

impl<'a> Restatable<'a> {
    // The sheet, with the components of each action entered into an array of zeros.
    pub fn of(accepted: &'a Accepted<'a>, participants: &'a mut [u64]) -> Restatable<'a>
        requires { participants.old ≡ replicate most_actions 0 }
        ensures { OverSheet accepted.now.sheet.now result.accepted.now.sheet.now }
    {
        participants_of(accepted.components, participants);
        Restatable {
            accepted,
            participants,
        }
    }

    // Packs the steps of a section into `packed`, which comes with zeros and has a place for each action. Gives back the part that has
    // the restated steps. That the section runs is a clause, here and below: a section may have other steps than the sheet.
    fn pack_section<'p>(&self, section: &[u8], packed: &'p mut [u64]) -> &'p [u64]
        requires { SectionRuns self.now.accepted.now.sheet.now section.now × PlacesFor (steps_in section.now) packed.old }
        ensures { result.now ≡ normal (tables self.now.accepted.now.sheet.now) (steps_in section.now) }
    {
        let count = normal_form::pack(section, self.participants, packed);
        &packed[..count]
    }

    // The restated steps of the sheet, packed into an array that comes with zeros and has a place for each action.
    pub fn pack<'p>(&self, packed: &'p mut [u64]) -> &'p [u64]
        requires { PlacesFor (steps self.now.accepted.now.sheet.now) packed.old }
        ensures { result.now ≡ restated_steps self.now.accepted.now.sheet.now }
    {
        self.pack_section(self.accepted.step_section(), packed)
    }

    // How many restated steps the sheet has.
    pub fn count_restated(&self) -> usize
        ensures { result ≡ length (restated_steps self.now.accepted.now.sheet.now) }
    {
        normal_form::count_levels(self.accepted.step_section(), self.participants)
    }

    // Restates the sheet with the steps of this section in place of its own: 13 where the restated bytes do not fit. The steps are packed
    // into `packed`, which comes with zeros and has a place for each action.
    fn write_packed(&self, section: &[u8], packed: &mut [u64], out: &mut [u8]) -> Answer
        requires { SectionRuns self.now.accepted.now.sheet.now section.now × PlacesFor (steps_in section.now) packed.old }
        ensures { RestatedInto (with_steps self.now.accepted.now.sheet.now (normal (tables self.now.accepted.now.sheet.now) (steps_in section.now)))
            out.old result out.new }
    {
        let front = self.accepted.front();
        let steps = self.pack_section(section, packed);
        let size = front.len() + 8 * steps.len() + 10;
        if out.len() < size {
            return answers::refuse(Refusal::NoRoom);
        }
        let sizes = self.accepted.sizes;
        writing::write_sheet(front, steps, sizes.n as u8, sizes.m as u8, out);
        Answer::Given(size as u64)
    }

    // The same, with so many places.
    #[inline(never)]
    fn write_places<const PLACES: usize>(&self, section: &[u8], out: &mut [u8]) -> Answer
        requires { SectionRuns self.now.accepted.now.sheet.now section.now × (length (flat (steps_in section.now)) ≤ PLACES)
            × (PLACES ≤ most_in_steps) }
        ensures { RestatedInto (with_steps self.now.accepted.now.sheet.now (normal (tables self.now.accepted.now.sheet.now) (steps_in section.now)))
            out.old result out.new }
    {
        let mut packed = [0u64; PLACES];
        self.write_packed(section, &mut packed, out)
    }

    // Restates the sheet with the steps of this section in place of its own. By the number of actions: a small sheet does not pay for zeros
    // that it has no use for.
    pub fn restate_steps(&self, section: &[u8], out: &mut [u8]) -> Answer
        requires { SectionRuns self.now.accepted.now.sheet.now section.now }
        ensures { RestatedInto (with_steps self.now.accepted.now.sheet.now (normal (tables self.now.accepted.now.sheet.now) (steps_in section.now)))
            out.old result out.new }
    {
        if reading::actions_in(section) <= 64 {
            return self.write_places::<64>(section, out);
        }
        self.write_places::<1024>(section, out)
    }
}
