// The desk's calls on one sheet. Each takes any bytes and always answers; what it answers, and every byte that is lent to it, is fixed by a
// definition of specs/.
#![tactic(auto)]

pub mod accepted;
pub mod figure;
pub mod process;
pub mod restatable;
pub mod restate;
pub mod stuck;
pub mod verdict;
