// The text of a report under construction: bytes, numbers in decimal, lists of numbers, lines, and the lines of steps and of sets, each
// written behind what stands there.
ghost use Rattle.std.specs.Prelude.{◌≡◌, List, [], ◌∷◌, ◌++◌, map, ℕ, ◌+◌, ◌<◌, ◌≤◌, length, take, get_or};
ghost use Rattle.sets.specs.Lists.{below, append_all};
ghost use Rattle.sets.specs.Bits.{members};
ghost use Rattle.answers.specs.Report.{decimal, part, line, step_word, end_word, step_texts, end_texts, report_room};

use sets::Elements;
use std::marker::Model;

// The first `used` bytes are the text so far. There is room for every report.
#[derive(Drop)]
pub struct Text {
    bytes: [u8; 16384],
    used: usize,
}

impl Model for Text {
    ghost Value = { List ℕ };

    ghost view = { λ t. take t.used t.bytes };

    ghost invariant = { λ t. t.used ≤ 16384 };
}

impl Text {
    // A text in which nothing is written yet.
    pub fn new() -> Text
        ensures { result ≡ [] }
    {
        Text {
            bytes: [0; 16384],
            used: 0,
        }
    }

    // The text so far.
    pub fn written(&self) -> &[u8]
        ensures { result.now ≡ self.now }
    {
        &self.bytes[..self.used]
    }

    // Writes a byte.
    fn byte(&mut self, byte: u8)
        requires { length self.old < report_room }
        ensures { self.new ≡ self.old ++ byte ∷ [] }
    {
        self.bytes[self.used] = byte;
        self.used += 1;
    }

    // Writes some bytes.
    fn text(&mut self, text: &[u8])
        requires { length self.old + length text.now ≤ report_room }
        ensures { self.new ≡ self.old ++ text.now }
    {
        let end = self.used + text.len();
        self.bytes[self.used..end].copy_from_slice(text);
        self.used = end;
    }

    // Writes a number in decimal: its digits from the last one to the first. The library's own text of a number (`InlineText::of`) takes
    // four to seven times as long.
    fn number(&mut self, x: u64)
        requires { length self.old + length (decimal x) ≤ report_room }
        ensures { self.new ≡ self.old ++ decimal x }
    {
        let end = self.used + x.max(1).ilog10() as usize + 1;
        let mut left = x;
        for place in (self.used..end).rev() {
            self.bytes[place] = b'0' + (left % 10) as u8;
            left /= 10;
        }
        self.used = end;
    }

    // Writes a space and a number.
    fn part(&mut self, x: u64)
        requires { length self.old + length (part x) ≤ report_room }
        ensures { self.new ≡ self.old ++ part x }
    {
        self.byte(b' ');
        self.number(x);
    }

    // Writes the elements of a set, a space before each.
    fn members(&mut self, x: u64)
        requires { length self.old + length (append_all (map part (members x))) ≤ report_room }
        ensures { self.new ≡ self.old ++ append_all (map part (members x)) }
    {
        for i in Elements::of(x) {
            self.part(u64::from(i));
        }
    }

    // Writes a line: its word, its numbers, a space before each, and a line feed.
    pub fn line(&mut self, word: &[u8], xs: &[u64])
        requires { length self.old + length (line word.now xs.now) ≤ report_room }
        ensures { self.new ≡ self.old ++ line word.now xs.now }
    {
        self.text(word);
        for x in xs {
            self.part(*x);
        }
        self.byte(b'\n');
    }

    // Writes the line `step` with the actions of a step. This line, the next one and that of some numbers are three methods: one for all of them
    // would take an iterator, and state the room that it needs by all that the iterator yields.
    fn step(&mut self, x: u64)
        requires { length self.old + length (line step_word (members x)) ≤ report_room }
        ensures { self.new ≡ self.old ++ line step_word (members x) }
    {
        self.text(b"step");
        self.members(x);
        self.byte(b'\n');
    }

    // Writes the line `end` with a component's index and the states of its set.
    fn end(&mut self, j: usize, x: u64)
        requires { length self.old + length (line end_word (j ∷ members x)) ≤ report_room }
        ensures { self.new ≡ self.old ++ line end_word (j ∷ members x) }
    {
        self.text(b"end");
        self.part(j as u64);
        self.members(x);
        self.byte(b'\n');
    }

    // Writes a line for each step.
    pub fn steps(&mut self, steps: &[u64])
        requires { length self.old + length (step_texts steps.now) ≤ report_room }
        ensures { self.new ≡ self.old ++ step_texts steps.now }
    {
        for step in steps {
            self.step(*step);
        }
    }

    // Writes a line for each component, by its end set.
    pub fn ends(&mut self, sets: &[u64])
        requires { length self.old + length (end_texts (λ j. get_or sets.now j 0) (below (length sets.now))) ≤ report_room }
        ensures { self.new ≡ self.old ++ end_texts (λ j. get_or sets.now j 0) (below (length sets.now)) }
    {
        for (j, set) in sets.iter().enumerate() {
            self.end(j, *set);
        }
    }
}
