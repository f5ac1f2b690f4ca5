// The heads of the columns: for each action the components whose columns it heads, and the actions that head the columns of all of their
// components. These are ready to be taken.
ghost use Rattle.std.specs.Prelude.{◌≡◌, false, ◌<◌, ◌≤◌, length, replicate};
ghost use Rattle.sets.specs.Bits.{member, with};
ghost use Rattle.sheet.specs.Bounds.{most_components, most_actions};
ghost use Rattle.merging.specs.legible.Reading.{labels_of, rest_in};
ghost use Rattle.std.proofs.Props.{props};
ghost use Rattle.merging.specs.heads.Headed.{headed-prop};
ghost use Rattle.merging.specs.heads.Heads.{FirstBelow, ShowsFirst, Lined, Shown, Everywhere, TakenShown, NextTaken, LeftOver};

use sets::Elements;

// The columns while they are merged: what is left of each; for each action the components that wait for it, since it heads their columns; and
// the actions that are ready, for which all of their components wait.
#[derive(Drop)]
pub struct Heads<'p, 'l, 'c, 'w> {
    pub participants: &'p [u64],
    pub left: &'l mut [&'c [u8]],
    pub waiting: &'w mut [u64],
    pub ready: u64,
    pub ghost lined: { Lined participants.now (labels_of left.now) },
    pub ghost shown: { Shown participants.now (rest_in (labels_of left.now)) Everywhere waiting.now ready } by { Prim.hlevel (props, headed-prop) },
}

// The parts of the heads come by themselves here and below: between these calls the facts of the heads do not hold.
// Component j shows the first of its labels, where there is one: it waits for that action. Gives back the ready actions, with this one where
// all of its components now wait for it.
fn show(labels: &[u8], j: u32, participants: &[u64], waiting: &mut [u64], ready: u64) -> u64
    requires { (j < most_components) × (length participants.now ≡ most_actions) × (length waiting.old ≡ most_actions) × FirstBelow labels.now }
    ensures { ShowsFirst labels.now j participants.now waiting.old ready waiting.new result }
{
    let Some(first) = labels.first() else {
        return ready;
    };
    let a = usize::from(*first);
    let mine = sets::with(waiting[a], j);
    waiting[a] = mine;
    if mine == participants[a] {
        return sets::with(ready, u32::from(*first));
    }
    ready
}

// Each component shows its first label. Gives back the ready actions.
pub fn show_all(participants: &[u64], left: &[&[u8]], waiting: &mut [u64]) -> u64
    requires { Lined participants.now (labels_of left.now) × (waiting.old ≡ replicate most_actions 0) }
    ensures { Shown participants.now (rest_in (labels_of left.now)) Everywhere waiting.new result }
{
    let mut ready = 0;
    for (j, labels) in left.iter().enumerate() {
        ready = show(labels, j as u32, participants, waiting, ready);
    }
    ready
}

// Takes the ready action a from the columns of its components: each goes on to its next label, and shows it. Gives back what is ready then,
// of the other actions that were and of those shown.
fn take_action(
    participants: &[u64],
    a: u32,
    others: u64,
    left: &mut [&[u8]],
    waiting: &mut [u64],
) -> u64
    requires { Lined participants.now (labels_of left.old) × (a < most_actions) × (member others a ≡ false)
        × Shown participants.now (rest_in (labels_of left.old)) Everywhere waiting.old (with a others) }
    ensures { TakenShown participants.now a (labels_of left.old) (labels_of left.new) waiting.new result }
{
    waiting[a as usize] = 0;
    let mut ready = others;
    for j in Elements::of(participants[a as usize]) {
        let labels = &left[j as usize][1..];
        left[j as usize] = labels;
        ready = show(labels, j, participants, waiting, ready);
    }
    ready
}

impl Heads<'_, '_, '_, '_> {
    // Takes the lowest of the ready actions from the columns of its components, and gives it back.
    pub fn take(&mut self) -> Option<u32>
        ensures participants_kept { self.new.participants.now ≡ self.old.participants.now }
        ensures same_columns { self.new.left.ghost_name ≡ self.old.left.ghost_name }
        ensures as_many { length self.new.left.now ≡ length self.old.left.now }
        ensures taken { NextTaken self.old.participants.now (labels_of self.old.left.now) (labels_of self.new.left.now) result }
    {
        if self.ready == 0 {
            return None;
        }
        let mut others = self.ready;
        let a = sets::take_lowest(&mut others);
        self.ready = take_action(self.participants, a, others, self.left, self.waiting);
        Some(a)
    }
}

// Whether a column has a label left.
pub fn some_left(left: &[&[u8]]) -> bool
    ensures { LeftOver (labels_of left.now) result }
{
    left.iter().any(|labels| !labels.is_empty())
}
