// Refusal 11: dependent actions in one step.
ghost use Rattle.std.specs.Prelude.{◌≡◌, ◌≢◌};
ghost use Rattle.systems.specs.Tables.{Tables};
ghost use Rattle.systems.specs.Checking.{not_apart};
ghost use Rattle.sheet.specs.Sections.{Alphabets};

use sets::Elements;
use sheet::Component;

// Whether two actions of the step, which is not empty, lie in one alphabet.
pub fn clashes(components: &[Component], step: u64) -> bool
    requires { step ≢ 0 }
    ensures { (T : Tables) → Alphabets T components.now → result ≡ not_apart T step }
{
    let mut others = step;
    sets::take_lowest(&mut others);
    if others == 0 {
        return false;
    }
    let mut found = false;
    'components: for component in components {
        let mut seen = false;
        for _ in Elements::of(step & component.alphabet) {
            if seen {
                found = true;
                break 'components;
            }
            seen = true;
        }
    }
    found
}
