// Writing a sheet section after section: each writer lends the rest of the output, from its middle on, to the writer of the next.
#![tactic(auto)]

ghost use Rattle.std.specs.Prelude.{◌≡◌, List, [], ◌∷◌, ◌++◌, ℕ, ◌+◌, ◌*◌, ◌<◌, ◌≤◌, length};
ghost use Rattle.sheet.specs.Bounds.{record_size, transition_size, step_size, trailer_size, most_components, most_transitions, most_steps};
ghost use Rattle.sheet.specs.Numbers.{bytes};
ghost use Rattle.sheet.specs.Layout.{mark};
ghost use Rattle.sheet.specs.Writing.{step_bytes, trailer, sheet_of};
ghost use Rattle.sets.specs.Lists.{over};

// S1: writes the N bytes of a number, least significant first.
pub fn put<const N: usize>(x: u64, out: &mut [u8])
    requires { (N ≤ 8) × (N ≤ length out.old) }
    ensures { out.new ≡ over (bytes N x) out.old }
{
    out[..N].copy_from_slice(&x.to_le_bytes()[..N]);
}

// S3: writes the record of a component: state count, three zero bytes, initial set, alphabet; and gives back how many bytes it has.
pub fn write_record(states: u8, initial: u64, alphabet: u64, out: &mut [u8]) -> usize
    requires { record_size ≤ length out.old }
    ensures { (result ≡ record_size)
        × (out.new ≡ over (bytes 1 states ++ (bytes 3 0 ++ (bytes 4 initial ++ bytes 8 alphabet))) out.old) }
{
    put::<4>(u64::from(states), out);
    put::<4>(initial, &mut out[4..]);
    put::<8>(alphabet, &mut out[8..]);
    16
}

// S4: writes a transition, a byte for each of its numbers, and gives back how many bytes it has.
pub fn write_transition(component: u8, source: u8, label: u8, target: u8, out: &mut [u8]) -> usize
    requires { transition_size ≤ length out.old }
    ensures { (result ≡ transition_size)
        × (out.new ≡ over (component ∷ source ∷ label ∷ target ∷ []) out.old) }
{
    out[0] = component;
    out[1] = source;
    out[2] = label;
    out[3] = target;
    4
}

// Writes what a trailer ends with: the counts and the closing mark. The counts come here and below as the two bytes that they are.
fn write_counts(n: u8, m: u8, out: &mut [u8])
    requires { 4 ≤ length out.old }
    ensures { out.new ≡ over (n ∷ m ∷ mark) out.old }
{
    out[0] = n;
    out[1] = m;
    out[2] = sheet::MARK[0];
    out[3] = sheet::MARK[1];
}

// S6: what a trailer tells: where the steps begin, and how many components and actions there are. Two bytes hold where the steps begin.
#[derive(Clone, Copy)]
struct Trailer {
    s: usize,
    n: u8,
    m: u8,
    ghost reached: { s < 65536 },
}

impl Trailer {
    // Writes the trailer.
    fn write(self, out: &mut [u8])
        requires { trailer_size ≤ length out.old }
        ensures { out.new ≡ over (trailer self.s self.n self.m) out.old }
    {
        put::<2>(0, out);
        put::<2>(16 * u64::from(self.n), &mut out[2..]);
        put::<2>(self.s as u64, &mut out[4..]);
        write_counts(self.n, self.m, &mut out[6..]);
    }
}

// S6, F4: closes a sheet without steps: the bytes before its trailer stand in the output already, and the rest is lent on.
pub fn close_sheet(s: usize, n: u8, m: u8, out: &mut [u8])
    requires { (s < 65536) × (s + trailer_size ≤ length out.old) }
    ensures { (front rest : List ℕ) → s ≡ length front → out.old ≡ over front rest
        → out.new ≡ over (sheet_of front n m []) rest }
{
    Trailer { s, n, m }.write(&mut out[s..]);
}

// S5: writes the steps, and lends the rest to the writer of the trailer.
fn write_steps(steps: &[u64], end: Trailer, out: &mut [u8])
    requires { (length steps.now ≤ most_steps) × (step_size * length steps.now + trailer_size ≤ length out.old) }
    ensures { out.new ≡ over (step_bytes steps.now ++ trailer end.s end.n end.m) out.old }
{
    for (k, step) in steps.iter().enumerate() {
        put::<8>(*step, &mut out[8 * k..]);
    }
    end.write(&mut out[8 * steps.len()..]);
}

// Copies bytes to the front of the output, and gives back how many they are.
pub fn put_bytes(bytes: &[u8], out: &mut [u8]) -> usize
    requires { length bytes.now ≤ length out.old }
    ensures { (result ≡ length bytes.now) × (out.new ≡ over bytes.now out.old) }
{
    let size = bytes.len();
    out[..size].copy_from_slice(bytes);
    size
}

// N9, F4: writes a sheet: the bytes before its steps as they are; the rest of the output is then lent on, to be filled with the steps.
pub fn write_sheet(front: &[u8], steps: &[u64], n: u8, m: u8, out: &mut [u8])
    requires { (length front.now < 65536) × (length steps.now ≤ most_steps)
        × (length front.now + step_size * length steps.now + trailer_size ≤ length out.old) }
    ensures { out.new ≡ over (sheet_of front.now n m steps.now) out.old }
{
    let s = put_bytes(front, out);
    write_steps(steps, Trailer { s, n, m }, &mut out[s..]);
}

// B8, B9: how many bytes stand before the steps of a sheet with n components and so many transitions.
pub fn front_length(n: usize, transitions: usize) -> usize
    requires { (n ≤ most_components) × (transitions ≤ most_transitions) }
    ensures { result ≡ record_size * n + transition_size * transitions }
{
    16 * n + 4 * transitions
}
