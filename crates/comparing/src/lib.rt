// Two sheets given together: whether they do the same work, and which of them is leaner. Each call takes any bytes and always answers;
// what it answers is fixed by a definition of crates/answers. Each judges the first sheet, and then the second against it: an answer is taken
// apart where it is handed back, and the rooms are lent from there. The trailer is read before: a sheet that it refuses does not pay for a room.
#![tactic(auto)]

mod both;
mod restated;
mod tables;

ghost use Rattle.comparing.specs.Calls.{SameWorkAnswer, WinnerAnswer, LeanerPart};

use answers::Answer;
use desk::accepted::Accepted;
use desk::verdict::{self, Room};

// Same work: 1 where the two sheets are related, 0 where they are not; a number, since C is told one.
pub fn same_work(first: &[u8], second: &[u8]) -> Answer
    ensures { SameWorkAnswer first.now second.now result }
{
    let read = reading::read_trailer(first);
    let Answer::Accepted(passed) = read else {
        return read;
    };
    let mut room = Room::new();
    let answer = verdict::judge_tables(first, passed, &mut room);
    let Answer::Accepted(sizes) = answer else {
        return answer;
    };
    let one = Accepted::of(first, sizes, &room);
    let read2 = both::told_of_second(reading::read_trailer(second));
    let Answer::Accepted(passed2) = read2 else {
        return read2;
    };
    let mut room2 = Room::new();
    let answer2 = both::judge_second(&one, second, passed2, &mut room2);
    let Answer::Accepted(sizes2) = answer2 else {
        return answer2;
    };
    let two = Accepted::of(second, sizes2, &room2);
    Answer::Given(u64::from(restated::same_restated(&one, &two)))
}

// Which of the two sheets is leaner: 1 for the second where it has fewer restated steps, else 0; a number, since C is told one.
pub fn winner(first: &[u8], second: &[u8]) -> Answer
    ensures { WinnerAnswer first.now second.now result }
{
    let read = reading::read_trailer(first);
    let Answer::Accepted(passed) = read else {
        return read;
    };
    let mut room = Room::new();
    let answer = verdict::judge_tables(first, passed, &mut room);
    let Answer::Accepted(sizes) = answer else {
        return answer;
    };
    let one = Accepted::of(first, sizes, &room);
    let read2 = both::told_of_second(reading::read_trailer(second));
    let Answer::Accepted(passed2) = read2 else {
        return read2;
    };
    let mut room2 = Room::new();
    let answer2 = both::judge_second(&one, second, passed2, &mut room2);
    let Answer::Accepted(sizes2) = answer2 else {
        return answer2;
    };
    let two = Accepted::of(second, sizes2, &room2);
    Answer::Given(u64::from(restated::second_leaner(&one, &two)))
}

// The step section of the leaner sheet, cut from its caller's own bytes, which outlive the rooms; an empty part for a refused pair.
pub fn leaner<'a>(first: &'a [u8], second: &'a [u8]) -> &'a [u8]
    ensures { LeanerPart first.now second.now result.now }
{
    let read = reading::read_trailer(first);
    let Answer::Accepted(passed) = read else {
        return &first[0..0];
    };
    let mut room = Room::new();
    let answer = verdict::judge_tables(first, passed, &mut room);
    let Answer::Accepted(sizes) = answer else {
        return &first[0..0];
    };
    let one = Accepted::of(first, sizes, &room);
    let read2 = both::told_of_second(reading::read_trailer(second));
    let Answer::Accepted(passed2) = read2 else {
        return &first[0..0];
    };
    let mut room2 = Room::new();
    let answer2 = both::judge_second(&one, second, passed2, &mut room2);
    let Answer::Accepted(sizes2) = answer2 else {
        return &first[0..0];
    };
    let two = Accepted::of(second, sizes2, &room2);
    if restated::second_leaner(&one, &two) {
        return reading::step_section(second, sizes2.s);
    }
    reading::step_section(first, sizes.s)
}
