// S4: the transitions of a transition section, each read from its four bytes.
ghost use Rattle.std.specs.Prelude.{◌≡◌};
ghost use Rattle.std.specs.Iterator.{YieldsFirstBy, item_count};
ghost use Rattle.numbers.specs.transitions.Transitions.{told, transitions_left};

// The label of an internal transition, which is no action.
pub const INTERNAL: u8 = 255;

// Which component, from which state, by which label, to which state.
#[derive(Clone, Copy)]
pub struct Transition {
    pub component: u8,
    pub source: u8,
    pub label: u8,
    pub target: u8,
}

// The transitions of a section that are still to come, the first in front.
#[derive(Clone, Copy)]
pub struct Transitions<'a> {
    section: &'a [u8],
}

impl<'a> Transitions<'a> {
    // The transitions of a section.
    pub fn of(section: &'a [u8]) -> Transitions<'a>
        ensures { result.section.now ≡ section.now }
    {
        Transitions { section }
    }
}

impl Iterator for Transitions<'_> {
    type Item = Transition;

    ghost next_gives = { YieldsFirstBy told transitions_left };

    ghost remaining = { item_count transitions_left };

    fn next(&mut self) -> Option<Transition> {
        let [component, source, label, target, others @ ..] = self.section else {
            return None;
        };
        self.section = others;
        Some(Transition {
            component: *component,
            source: *source,
            label: *label,
            target: *target,
        })
    }
}
