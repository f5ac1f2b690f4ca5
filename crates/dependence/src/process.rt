// The process check over a step section: each step is to follow the one just before it.
ghost use Rattle.std.specs.Prelude.{◌≡◌, cond, map, MatchOption, ℕ, ◌<◌, eqb};
ghost use Rattle.std.specs.Int.Bits.{bit_and};
ghost use Rattle.std.proofs.Math.Option.{none, some};
ghost use Rattle.sets.specs.Lists.{any_of};
ghost use Rattle.sets.specs.Bits.{member, members};
ghost use Rattle.traces.specs.Steps.{follows};
ghost use Rattle.traces.specs.Offences.{first_offence};
ghost use Rattle.systems.specs.Tables.{Tables, InOrder, WordOver};
ghost use Rattle.systems.specs.Checking.{flat};
ghost use Rattle.systems.specs.Independence.{dependent};
ghost use Rattle.sheet.specs.Sections.{steps_in, Alphabets};

use numbers::Steps;
use sheet::Component;

// The alphabet where it has an action of the set, else the empty set.
fn alphabet_met(alphabet: u64, set: u64) -> u64
    ensures { result ≡ cond (eqb (bit_and alphabet set) 0) 0 alphabet }
{
    if alphabet & set == 0 { 0 } else { alphabet }
}

// The union of the alphabets that have an action of the set: the actions that depend on some action of it.
fn actions_met(components: &[Component], set: u64) -> u64
    ensures { (T : Tables) → InOrder T → Alphabets T components.now → (a : ℕ) → a < T.actions
        → member result a ≡ any_of (dependent T a) (members set) }
{
    let mut met = 0;
    for component in components {
        met = met | alphabet_met(component.alphabet, set);
    }
    met
}

// Whether every action of the step depends on some action of the step before it.
fn follows_step(components: &[Component], before: u64, step: u64) -> bool
    ensures { (T : Tables) → InOrder T → Alphabets T components.now → WordOver T (members step)
        → result ≡ follows (dependent T) (members before) (members step) }
{
    let met = actions_met(components, before);
    (step | met) == met
}

// The index of the first step of a step section that does not follow the one just before it.
pub fn first_offence(section: &[u8], components: &[Component]) -> Option<usize>
    ensures { (T : Tables) → InOrder T → Alphabets T components.now → WordOver T (flat (steps_in section.now))
        → MatchOption result (first_offence (dependent T) (map members (steps_in section.now)) ≡ none)
        (λ k. first_offence (dependent T) (map members (steps_in section.now)) ≡ some k) }
{
    let mut steps = Steps::of(section);
    let mut before = steps.next()?;
    for (k, step) in steps.enumerate() {
        if !follows_step(components, before, step) {
            return Some(k + 1);
        }
        before = step;
    }
    None
}
