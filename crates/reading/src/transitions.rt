// Refusals 7 and 8: the transition section of a sheet, handed over as a part of it.
ghost use Rattle.std.specs.Prelude.{◌≡◌, not, ◌||◌, ◌/◌, eqb, length, get_or, List};
ghost use Rattle.sets.specs.Lists.{any_of};
ghost use Rattle.sets.specs.Bits.{member};
ghost use Rattle.systems.specs.Tables.{Tables};
ghost use Rattle.sheet.specs.Numbers.{AreBytes, parts};
ghost use Rattle.sheet.specs.Refusals.{transition_wrong, rising_bytes};
ghost use Rattle.sheet.specs.declared.Component.{Component};
ghost use Rattle.sheet.specs.Sections.{transitions_in, no_component, Decoded};
ghost use Rattle.numbers.specs.transitions.Transitions.{told};
ghost use Rattle.reading.specs.transitions.Fitting.{heavy_first, seven_or_eight};

use answers::Refusal;
use numbers::{INTERNAL, Transition, Transitions};
use sheet::Component;

// Whether a component with this alphabet cannot have the label.
fn label_wrong(alphabet: u64, label: u8) -> bool
    ensures { result ≡ not (eqb label 255 || member alphabet label) }
{
    if label < 64 && sets::has(alphabet, u32::from(label)) {
        return false;
    }
    label != INTERNAL
}

// The record of component j; where there is none, one of no states, which no transition fits.
fn record_at(components: &[Component], j: u8) -> Component
    ensures { result ≡ get_or components.now j no_component }
{
    match components.get(usize::from(j)) {
        Some(component) => *component,
        None => Component {
            states: 0,
            initial: 0,
            alphabet: 0,
            base: 0,
        },
    }
}

// Whether the transition does not fit the component, which is its own.
fn transition_wrong(transition: Transition, component: Component) -> bool
    ensures { (T : Tables) (components : List Component) → Decoded T components
        → component ≡ get_or components transition.component no_component → result ≡ transition_wrong T (told transition) }
{
    let highest = transition.source.max(transition.target);
    component.states <= usize::from(highest) || label_wrong(component.alphabet, transition.label)
}

// Whether some transition of the section is wrong. Mostly the component is that of the transition before, whose record is at hand; at first it
// is that of number 255, which no component has. Not inlined, since the loop needs all registers.
#[inline(never)]
fn some_wrong(section: &[u8], components: &[Component]) -> bool
    ensures { (T : Tables) → Decoded T components.now → result ≡ any_of (transition_wrong T) (transitions_in section.now) }
{
    let mut current = 255;
    let mut component = record_at(components, current);
    for transition in Transitions::of(section) {
        if transition.component != current {
            current = transition.component;
            component = record_at(components, current);
        }
        if transition_wrong(transition, component) {
            return true;
        }
    }
    false
}

// The four bytes as one number, the first byte heaviest: byte strings of four rise as these numbers do.
fn key(string: [u8; 4]) -> u32
    ensures { (result ≡ heavy_first string) × AreBytes string }
{
    u32::from_be_bytes(string)
}

// Whether the byte strings do not rise strictly. No turn ends the loop, and each compares what stands in two places: so it is compiled to
// compare several at once.
fn falls(strings: &[[u8; 4]]) -> bool
    ensures { result ≡ not (rising_bytes strings.now) }
{
    let mut falls = false;
    for k in 1..strings.len() {
        falls |= key(strings[k]) <= key(strings[k - 1]);
    }
    falls
}

// 7 where some transition of the section is wrong, else 8 where the transitions are out of order.
pub fn refusal(section: &[u8], components: &[Component]) -> Option<Refusal>
    ensures { (T : Tables) → Decoded T components.now
        → result ≡ seven_or_eight (any_of (transition_wrong T) (transitions_in section.now))
        (not (rising_bytes (parts 4 (length section.now / 4) section.now))) }
{
    if some_wrong(section, components) {
        return Some(Refusal::Transition);
    }
    let (strings, _) = section.as_chunks::<4>();
    falls(strings).then_some(Refusal::Order)
}
