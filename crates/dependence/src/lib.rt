// Which actions are dependent, tested by the alphabets: the participants of each action, clashes in a step, the process check.
#![tactic(auto)]

pub mod clash;
pub mod participants;
pub mod process;
