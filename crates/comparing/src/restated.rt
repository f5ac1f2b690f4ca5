// The restated steps of two sheets over the same tables side by side: whether they are the same, and which are fewer.
ghost use Rattle.std.specs.Prelude.{◌≡◌, ◌≤◌, ltb, length};
ghost use Rattle.systems.specs.Checking.{flat};
ghost use Rattle.sheet.specs.Bounds.{most_in_steps};
ghost use Rattle.sheet.specs.Layout.{steps};
ghost use Rattle.sheet.specs.Refusals.{same_numbers};
ghost use Rattle.answers.specs.Restated.{restated_steps};
ghost use Rattle.desk.specs.Left.{PlacesFor};

use desk::accepted::Accepted;
use desk::restatable::Restatable;

// The restated steps of an accepted sheet, packed into an array that comes with zeros and has a place for each action.
fn pack_alone<'p>(accepted: &Accepted, packed: &'p mut [u64]) -> &'p [u64]
    requires { PlacesFor (steps accepted.now.sheet.now) packed.old }
    ensures { result.now ≡ restated_steps accepted.now.sheet.now }
{
    let mut participants = [0u64; 64];
    let restatable = Restatable::of(accepted, &mut participants);
    restatable.pack(packed)
}

// Whether two accepted sheets have the same restated steps, where so many places are enough for each.
fn same_places<const PLACES: usize>(one: &Accepted, two: &Accepted) -> bool
    requires { (length (flat (steps one.now.sheet.now)) ≤ PLACES) × (length (flat (steps two.now.sheet.now)) ≤ PLACES)
        × (PLACES ≤ most_in_steps) }
    ensures { result ≡ same_numbers (restated_steps one.now.sheet.now) (restated_steps two.now.sheet.now) }
{
    let mut packed = [0u64; PLACES];
    let mut packed2 = [0u64; PLACES];
    pack_alone(one, &mut packed) == pack_alone(two, &mut packed2)
}

// Whether two accepted sheets have the same restated steps. By the number of actions: small sheets do not pay for zeros that they have no
// use for.
pub fn same_restated(one: &Accepted, two: &Accepted) -> bool
    ensures { result ≡ same_numbers (restated_steps one.now.sheet.now) (restated_steps two.now.sheet.now) }
{
    if one.actions() > 64 {
        return same_places::<1024>(one, two);
    }
    if two.actions() > 64 {
        return same_places::<1024>(one, two);
    }
    same_places::<64>(one, two)
}

// How many steps an accepted sheet has when it is restated.
fn restated_count(accepted: &Accepted) -> usize
    ensures { result ≡ length (restated_steps accepted.now.sheet.now) }
{
    let mut participants = [0u64; 64];
    let restatable = Restatable::of(accepted, &mut participants);
    restatable.count_restated()
}

// Whether the second of two accepted sheets has fewer restated steps.
pub fn second_leaner(one: &Accepted, two: &Accepted) -> bool
    ensures { result ≡ ltb (length (restated_steps two.now.sheet.now)) (length (restated_steps one.now.sheet.now)) }
{
    let count = restated_count(one);
    let count2 = restated_count(two);
    count2 < count
}
