// The numbers of the report's first line for an accepted sheet.
ghost use Rattle.std.specs.Prelude.{◌≡◌, length};
ghost use Rattle.answers.specs.Restated.{restated_steps};
ghost use Rattle.answers.specs.Report.{accepted_word, line, summary_line};

use desk::restatable::Restatable;
use desk::{figure, stuck};

// The numbers of an accepted sheet's first line: its steps, its restated steps, the figure, and 1 if it is stuck.
pub fn summary_numbers(restatable: &Restatable, count: usize) -> [u64; 4]
    requires { count ≡ length (restated_steps restatable.now.accepted.now.sheet.now) }
    ensures { line accepted_word result ≡ summary_line restatable.now.accepted.now.sheet.now }
{
    let accepted = restatable.accepted;
    let steps = accepted.step_count();
    let figure = figure::figure_with(accepted, count);
    let stuck = u64::from(stuck::stuck_at(restatable));
    [steps as u64, count as u64, figure, stuck]
}
