// The verdict on a sheet, and where each component may be after its last step.
ghost use Rattle.std.specs.Prelude.{◌≡◌, ◌≤◌, length, replicate};
ghost use Rattle.sets.specs.Lists.{over};
ghost use Rattle.reading.specs.Reading.{TrailerPassed};
ghost use Rattle.desk.specs.Calls.{CheckAnswer, EndSetsAnswer};
ghost use Rattle.desk.specs.Left.{ToldWithSizes, empty_room, Judged};

use answers::{Answer, EndSets, Sizes};
use sheet::Component;

// What stands in the room for a component before it is read.
const NO_COMPONENT: Component = Component {
    states: 0,
    initial: 0,
    alphabet: 0,
    base: 0,
};

// The room that judging a sheet takes. Of an accepted sheet with n components it is left with these, decoded, and with n end sets, all in front.
#[derive(Clone, Copy)]
pub struct Room {
    pub components: [Component; 16],
    pub held: [u64; 16],
}

impl Room {
    // Room for any sheet.
    pub fn new() -> Room
        ensures { result ≡ empty_room }
    {
        Room {
            components: [NO_COMPONENT; 16],
            held: [0; 16],
        }
    }
}

// The refusal of an answer, or the sizes. It is taken apart and put together: copied as a whole, an answer just written is waited for.
fn refusal_or_sizes(answer: Answer, sizes: Sizes) -> Answer
    ensures { ToldWithSizes answer sizes result }
{
    let Answer::Refused {
        refusal,
        index,
        sheet,
    } = answer
    else {
        return Answer::Accepted(sizes);
    };
    Answer::Refused {
        refusal,
        index,
        sheet,
    }
}

// Refusals 5 to 12 of a sheet whose trailer passed, or its sizes, and what is left in the room. The sizes are put together anew, for the same
// reason as above.
pub fn judge_tables(sheet: &[u8], sizes: Sizes, room: &mut Room) -> Answer
    requires { TrailerPassed sheet.now sizes }
    ensures { Judged sheet.now result room.new }
{
    let sizes = Sizes {
        n: sizes.n,
        m: sizes.m,
        t: sizes.t,
        s: sizes.s,
    };
    let read = reading::read_tables(sheet, sizes, &mut room.components[..sizes.n]);
    let Answer::Accepted(_) = read else {
        return read;
    };
    let t = sizes.t;
    let s = sizes.s;
    let run = machine::run_from_start(
        &sheet[t..s],
        reading::step_section(sheet, s),
        sizes,
        &room.components[..sizes.n],
        &mut room.held,
    );
    refusal_or_sizes(run, sizes)
}

// The same for the check and the end sets, which answer at once what comes of it. The sheet is handed on as a part, whose bounds are in
// registers; the bounds of the sheet itself would be copied in memory.
fn judge_passed(sheet: &[u8], sizes: Sizes, room: &mut Room) -> Answer
    requires { TrailerPassed sheet.now sizes }
    ensures { Judged sheet.now result room.new }
{
    refusal_or_sizes(judge_tables(&sheet[0..], sizes, room), sizes)
}

// The verdict on a sheet: accepted with its sizes, or refused with number and step index; and what is left in the room.
pub fn judge(sheet: &[u8], room: &mut Room) -> Answer
    ensures { Judged sheet.now result room.new }
{
    let read = reading::read_trailer(sheet);
    let Answer::Accepted(sizes) = read else {
        return read;
    };
    judge_passed(sheet, sizes, room)
}

// The verdict on a sheet. The trailer is read first: a sheet that it refuses does not pay for the room.
pub fn check(sheet: &[u8]) -> Answer
    ensures { CheckAnswer sheet.now result }
{
    let told = reading::read_trailer(sheet);
    let Answer::Accepted(sizes) = told else {
        return told;
    };
    let mut room = Room::new();
    judge_passed(sheet, sizes, &mut room)
}

// These sets, and 0 for the components that a sheet does not have.
fn first_sets(ends: &[u64]) -> [u64; 16]
    requires { length ends.now ≤ 16 }
    ensures { result ≡ over ends.now (replicate 16 0) }
{
    let mut sets = [0u64; 16];
    sets[..ends.len()].copy_from_slice(ends);
    sets
}

// The end sets of a sheet: where each component may be after the last step.
pub fn end_sets(sheet: &[u8]) -> EndSets
    ensures { EndSetsAnswer sheet.now result }
{
    let mut room = Room::new();
    let answer = judge(sheet, &mut room);
    let Answer::Accepted(sizes) = answer else {
        return EndSets {
            answer,
            sets: [0u64; 16],
        };
    };
    EndSets {
        answer,
        sets: first_sets(&room.held[..sizes.n]),
    }
}
