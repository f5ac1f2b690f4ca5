// 10 and 11: the steps that are refused for themselves, whatever is held before them.
ghost use Rattle.std.specs.Prelude.{◌≡◌, ◌≤◌, MatchOption};
ghost use Rattle.systems.specs.Tables.{Tables};
ghost use Rattle.sheet.specs.Sections.{steps_in, Alphabets};
ghost use Rattle.answers.specs.Outcomes.{number_of};
ghost use Rattle.machine.specs.flaws.Flaws.{flaw_of, IsFirstFlaw};

use answers::Refusal;
use dependence::clash;
use sheet::Component;

// The first flaw of some steps: its refusal, and the index of its step.
#[derive(Clone, Copy)]
pub struct Flaw {
    pub refusal: Refusal,
    pub index: usize,
}

// 10 or 11 of a step, the lowest that holds. That there are at most 64 actions is a clause here, below and in `stuck`, and no type: the number of
// actions comes alone, out of the sizes, and each function hands it to one call.
fn flaw_of(components: &[Component], m: usize, step: u64) -> Option<Refusal>
    requires { m ≤ 64 }
    ensures { (T : Tables) → Alphabets T components.now → T.actions ≡ m
        → MatchOption result (flaw_of T step ≡ 0) (λ r. number_of r ≡ flaw_of T step) }
{
    if sets::misses(step, m as u64) {
        return Some(Refusal::NotActions);
    }
    if clash::clashes(components, step) {
        return Some(Refusal::Clash);
    }
    None
}

// The first flaw of the steps of a section. They are gone over by their number: with `Steps` a step takes 2.7 ns, and so 1.7.
pub fn first_flaw(steps: &[u8], components: &[Component], m: usize) -> Option<Flaw>
    requires { m ≤ 64 }
    ensures { (T : Tables) → Alphabets T components.now → T.actions ≡ m → IsFirstFlaw T (steps_in steps.now) result }
{
    for index in 0..steps.len() / 8 {
        if let Some(refusal) = flaw_of(components, m, numbers::step_at(steps, index)) {
            return Some(Flaw { refusal, index });
        }
    }
    None
}
