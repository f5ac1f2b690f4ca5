// The concurrency figure of a sheet.
ghost use Rattle.std.specs.Prelude.{◌≡◌, ◌≤◌, length};
ghost use Rattle.sheet.specs.Bounds.{most_in_steps};
ghost use Rattle.answers.specs.Restated.{restated_steps};
ghost use Rattle.answers.specs.Figure.{FigureOf, figure};
ghost use Rattle.desk.specs.Calls.{FigureAnswer};

use crate::accepted::Accepted;
use crate::restatable::Restatable;
use crate::verdict::{self, Room};
use answers::Answer;

// A4: ten times the actions, divided by the steps and rounded to the nearest whole number; a half goes to the even one; 0 without steps.
fn rounded_quotient(actions: u64, steps: u64) -> u64
    requires { actions ≤ most_in_steps }
    ensures { FigureOf actions steps result }
{
    if steps == 0 {
        return 0;
    }
    let whole = 10 * actions / steps;
    let rest = 10 * actions % steps;
    // The rest is more than half of the steps; or it is just half, and the whole is odd.
    if 2 * rest + whole % 2 > steps {
        return whole + 1;
    }
    whole
}

// The figure of an accepted sheet that has `count` restated steps.
pub fn figure_with(accepted: &Accepted, count: usize) -> u64
    requires { count ≡ length (restated_steps accepted.now.sheet.now) }
    ensures { result ≡ figure accepted.now.sheet.now }
{
    rounded_quotient(accepted.actions(), count as u64)
}

// The concurrency figure of a sheet.
pub fn figure_of(sheet: &[u8]) -> Answer
    ensures { FigureAnswer sheet.now result }
{
    let mut room = Room::new();
    let answer = verdict::judge(sheet, &mut room);
    let Answer::Accepted(sizes) = answer else {
        return answer;
    };
    let accepted = Accepted::of(sheet, sizes, &room);
    let mut participants = [0u64; 64];
    let restatable = Restatable::of(&accepted, &mut participants);
    Answer::Given(figure_with(&accepted, restatable.count_restated()))
}
