// What the calls answer: one enum for all of them, and no `Result` for each, so that a call hands on the refusal of another as it came. What each
// call is to answer stands in specs/.
#![tactic(auto)]

ghost use Rattle.std.specs.Prelude.{◌≡◌};
ghost use Rattle.answers.specs.declared.Answer.TheVariants.{Refused};
ghost use Rattle.answers.specs.Outcomes.{number_of};

// The numbers that the trailer of a sheet tells: n components, m actions, where the transitions begin, and where the steps begin.
#[derive(Clone, Copy)]
pub struct Sizes {
    pub n: usize,
    pub m: usize,
    pub t: usize,
    pub s: usize,
}

// What is refused, each by its number in the rules.
#[derive(Clone, Copy, PartialEq, Eq)]
pub enum Refusal {
    // of the trailer: the length of the sheet, its closing mark, its counts, its offsets
    Length = 1,
    Mark = 2,
    Counts = 3,
    Offsets = 4,
    // of the tables: a component's record, an action that no component has, a transition, the order of the transitions
    Record = 5,
    UnusedAction = 6,
    Transition = 7,
    Order = 8,
    // of the steps: too many actions together; then of one step
    TooManyActions = 9,
    NotActions = 10,
    Clash = 11,
    NotEnabled = 12,
    // of a call: the lent output is too short, the second sheet has other tables
    NoRoom = 13,
    OtherTables = 14,
    // of a product: its bytes, a row, a component that is in no row
    NotProduct = 15,
    BadRow = 16,
    IdleComponent = 17,
    // of columns: their bytes, and columns that no execution has
    NotColumns = 18,
    NoExecution = 19,
}

impl Refusal {
    // The number of the refusal in the rules.
    pub fn number(self) -> u64
        ensures { result ≡ number_of self }
    {
        self as u64
    }
}

// The sizes of an accepted sheet, the number that was asked for, or the refusal: its step index, and which sheet it is about where two are
// given, counted from 0 as the steps are. It is no Result: readers answer an enum, which is taken apart by `let .. else` (document 01), and as there is
// one for all calls, each hands on the refusal of another as it came.
#[derive(Clone, Copy)]
pub enum Answer {
    Accepted(Sizes),
    Given(u64),
    Refused {
        refusal: Refusal,
        index: usize,
        sheet: u64,
    },
}

// The answer on a sheet, and for an accepted one the end set of each component. There are always sixteen sets, as the calls from C lend them.
#[derive(Clone, Copy)]
pub struct EndSets {
    pub answer: Answer,
    pub sets: [u64; 16],
}

// The refusal, of no step, and of the first sheet.
pub fn refuse(refusal: Refusal) -> Answer
    ensures { result ≡ Refused refusal 0 0 }
{
    Answer::Refused {
        refusal,
        index: 0,
        sheet: 0,
    }
}
