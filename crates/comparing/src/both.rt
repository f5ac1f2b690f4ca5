// O6: the check of two sheets given together: the refusals of the first, then those of the second, then 14.
ghost use Rattle.reading.specs.Reading.{TrailerPassed};
ghost use Rattle.comparing.specs.Both.{ToldOfSecond, SecondJudged};

use crate::tables;
use answers::{Answer, Refusal, Sizes};
use desk::accepted::Accepted;
use desk::verdict::{self, Room};

// The answer on the second sheet: its refusal tells sheet 1.
pub fn told_of_second(answer: Answer) -> Answer
    ensures { ToldOfSecond answer result }
{
    let Answer::Refused { refusal, index, .. } = answer else {
        return answer;
    };
    Answer::Refused {
        refusal,
        index,
        sheet: 1,
    }
}

// Of a second sheet whose trailer passed: its sizes, where it is accepted and over the same tables as the first, or the refusal of the pair; and
// what judging it leaves.
pub fn judge_second(first: &Accepted, second: &[u8], sizes: Sizes, room: &mut Room) -> Answer
    requires { TrailerPassed second.now sizes }
    ensures { SecondJudged first.now.sheet.now second.now result room.new }
{
    let answer = told_of_second(verdict::judge_tables(second, sizes, room));
    let Answer::Accepted(known) = answer else {
        return answer;
    };
    if tables::differ(first, &Accepted::of(second, known, room)) {
        return answers::refuse(Refusal::OtherTables);
    }
    Answer::Accepted(known)
}
