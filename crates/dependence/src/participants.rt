// The participants of each action: the components whose alphabets have it.
ghost use Rattle.std.specs.Prelude.{◌≡◌, ◌<◌, ◌≤◌, length, replicate};
ghost use Rattle.systems.specs.Tables.{Tables};
ghost use Rattle.sheet.specs.Bounds.{most_components, most_actions};
ghost use Rattle.sheet.specs.Sections.{Alphabets};
ghost use Rattle.dependence.specs.participants.Participants.{Participants, ComponentEntered};

use sets::Elements;
use sheet::Component;

// Enters component j for each action of its alphabet.
pub fn enter(alphabet: u64, j: u32, found: &mut [u64])
    requires { (length found.old ≡ most_actions) × (j < 64) }
    ensures { ComponentEntered alphabet j found.old found.new }
{
    for a in Elements::of(alphabet) {
        let a = a as usize;
        found[a] = sets::with(found[a], j);
    }
}

// The participants of each action, by the alphabets of the components, into an array of zeros.
pub fn participants_of(components: &[Component], found: &mut [u64])
    requires { (length components.now ≤ most_components) × (found.old ≡ replicate most_actions 0) }
    ensures { (T : Tables) → Alphabets T components.now → Participants T found.new }
{
    for (j, component) in components.iter().enumerate() {
        enter(component.alphabet, j as u32, found);
    }
}
