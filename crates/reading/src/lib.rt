// A sheet read and checked, document 01, refusals 1 to 9: the trailer, and a checker for each section, which is handed to it as a part of the sheet.
#![tactic(auto)]

mod records;
mod trailer;
mod transitions;

ghost use Rattle.std.specs.Prelude.{◌≡◌, ℕ, ◌+◌, ◌*◌, ◌≤◌, ltb, length, take};
ghost use Rattle.systems.specs.Checking.{flat};
ghost use Rattle.sheet.specs.Bounds.{record_size, step_size, trailer_size, most_components, most_steps, most_in_steps};
ghost use Rattle.sheet.specs.Layout.{tables_of};
ghost use Rattle.sheet.specs.Verdict.{accepted, trailer_verdict, tables_verdict};
ghost use Rattle.sheet.specs.Sections.{steps_in, Decoded};
ghost use Rattle.answers.specs.declared.Answer.TheVariants.{Accepted};
ghost use Rattle.answers.specs.Outcomes.{outcome_of, read_outcome};
ghost use Rattle.reading.specs.Reading.{TrailerPassed, up_to_trailer};

use answers::{Answer, Refusal, Sizes};
use sheet::Component;

// The sizes that the trailer tells.
fn sizes(sheet: &[u8]) -> Answer
    requires { trailer_size ≤ length sheet.now }
    ensures { outcome_of result ≡ read_outcome sheet.now accepted }
{
    let l = sheet.len();
    Answer::Accepted(Sizes {
        n: usize::from(sheet[l - 4]),
        m: usize::from(sheet[l - 3]),
        t: numbers::number::<2>(sheet, l - 8) as usize,
        s: numbers::number::<2>(sheet, l - 6) as usize,
    })
}

// Refusals 1 to 4: the first that holds, or the sizes. Each test may take those before it as passed, so they stand one after another.
#[tactic(auto, using(crate::proofs::trailer::Trailer::long_enough))]
pub fn read_trailer(sheet: &[u8]) -> Answer
    ensures { outcome_of result ≡ read_outcome sheet.now (trailer_verdict sheet.now accepted) }
{
    if trailer::length_wrong(sheet) {
        return answers::refuse(Refusal::Length);
    }
    if trailer::mark_wrong(sheet) {
        return answers::refuse(Refusal::Mark);
    }
    if trailer::counts_wrong(sheet) {
        return answers::refuse(Refusal::Counts);
    }
    if trailer::offsets_wrong(sheet) {
        return answers::refuse(Refusal::Offsets);
    }
    sizes(sheet)
}

// Puts the decoded records of the section into `components`, as many as there are.
pub fn decode(section: &[u8], components: &mut [Component])
    requires { (length components.old ≤ most_components) × (record_size * length components.old ≤ length section.now) }
    ensures { (m : ℕ) → Decoded (tables_of section.now (length components.old) m) components.new }
{
    let mut base = 0;
    for (j, component) in components.iter_mut().enumerate() {
        *component = records::decoded(section, j, base);
        base += component.states;
    }
}

// The step section of a sheet whose steps begin at `s`: the bytes from there up to the trailer.
pub fn step_section(sheet: &[u8], s: usize) -> &[u8]
    requires { s + trailer_size ≤ length sheet.now }
    ensures { result.now ≡ up_to_trailer s sheet.now }
{
    &sheet[s..sheet.len() - 10]
}

// How many actions the steps of the section have together. They are gone over by their number: with `Steps` the loop takes twice as long.
pub fn actions_in(section: &[u8]) -> u64
    requires { length section.now ≤ step_size * most_steps }
    ensures { result ≡ length (flat (steps_in section.now)) }
{
    let mut sum = 0;
    for k in 0..section.len() / 8 {
        sum += u64::from(sets::count(numbers::step_at(section, k)));
    }
    sum
}

// 9: whether the steps of the section have more than 1,024 actions together. A step has at most 64, so 16 steps need not be counted.
fn too_many(section: &[u8]) -> bool
    requires { length section.now ≤ step_size * most_steps }
    ensures { result ≡ ltb most_in_steps (length (flat (steps_in section.now))) }
{
    128 < section.len() && 1024 < actions_in(section)
}

// Refusals 5 to 9 of a sheet whose trailer passed: the first that holds, or the sizes. Sheet and sizes stand beside each other, since
// `read_trailer` answers the sizes alone. Of a sheet that passes, the decoded records are left in `components`.
#[tactic(auto, using(crate::proofs::Passing::trailer_read))]
pub fn read_tables(sheet: &[u8], sizes: Sizes, components: &mut [Component]) -> Answer
    requires { TrailerPassed sheet.now sizes × (length components.old ≡ sizes.n) }
    ensures { (outcome_of result ≡ read_outcome sheet.now (tables_verdict sheet.now accepted))
        × (result ≡ Accepted sizes → Decoded (tables_of (take sizes.s sheet.now) sizes.n sizes.m) components.new) }
{
    let Sizes { m, t, s, .. } = sizes;
    let front = &sheet[..t];
    if records::records_wrong(front, m as u64) {
        return answers::refuse(Refusal::Record);
    }
    decode(front, components);
    if records::action_unused(components, m as u32) {
        return answers::refuse(Refusal::UnusedAction);
    }
    if let Some(refusal) = transitions::refusal(&sheet[t..s], components) {
        return answers::refuse(refusal);
    }
    if too_many(step_section(sheet, s)) {
        return answers::refuse(Refusal::TooManyActions);
    }
    Answer::Accepted(sizes)
}
