// The pure parts of the programs: frames cut from the input, and lines put into a space of bytes.
#![tactic(auto)]

ghost use Rattle.std.specs.Prelude.{◌+◌, ◌-◌, ◌*◌, ◌≤◌, ◌<◌, ◌≡◌, [], ◌∷◌, pos, length, take, map};
ghost use Rattle.base.specs.Chains.{unless_zero};
ghost use Rattle.frames.specs.Number.{number};
ghost use Rattle.rules.specs.Lookups.{net_told};
ghost use Rattle.rules.specs.Step.{answer_number, answer_value, answer_count};
ghost use Rattle.lines.specs.Lines.{decimal, signed, spaced, text_line, record_lines, event_text, net_text, told_line};
ghost use Rattle.lines.specs.Cuts.{told_length, needed_of, cut_of};
ghost use Rattle.lines.specs.Places.{last_two, PutAt, WithinAt};

use events::Refusal;
use rules::Accepted;

// The number of two bytes at a place.
pub fn two_bytes(bytes: &[u8], at: usize) -> usize
    requires { at + 2 ≤ length bytes.now }
    ensures { (result ≡ number 2 bytes.now at) × (result < 65536) }
{
    usize::from(u16::from_le_bytes([bytes[at], bytes[at + 1]]))
}

// The length that the first two bytes tell.
fn told_length(rest: &[u8]) -> usize
    requires { 2 ≤ length rest.now }
    ensures { result ≡ told_length rest.now }
{
    two_bytes(rest, 0)
}

// How many bytes of the rest of the input must be there to judge its first frame: the two of the length, then the frame, if the
// length is not under 4.
pub fn needed(rest: &[u8]) -> usize
    ensures { result ≡ needed_of rest.now }
{
    if rest.len() < 2 {
        return 2;
    }
    let n = told_length(rest);
    if n < 4 { 2 } else { n }
}

// The length of the first frame of the rest of the input; none where it is under 4 or past the input's end.
pub fn cut(rest: &[u8]) -> Option<usize>
    ensures { result ≡ unless_zero (cut_of rest.now) }
{
    if rest.len() < 2 {
        return None;
    }
    let n = told_length(rest);
    (4..=rest.len()).contains(&n).then_some(n)
}

// Lines are put by functions of a space and a place in it, which answer the next place: so the place stays in a register. Behind a
// `&mut Text` it would be read and written anew for each byte, since for all the compiler knows the byte may have changed it.

// One byte.
fn put_byte(out: &mut [u8], at: usize, byte: u8) -> usize
    requires { at + 1 ≤ length out.old }
    ensures { PutAt out.old out.new at result (byte ∷ []) }
{
    out[at] = byte;
    at + 1
}

// The last two digits of a number.
fn put_last_two(out: &mut [u8], at: usize, n: u64) -> usize
    requires { at + 2 ≤ length out.old }
    ensures { PutAt out.old out.new at result (last_two n) }
{
    let next = put_byte(out, at, b'0' + (n / 10 % 10) as u8);
    put_byte(out, next, b'0' + (n % 10) as u8)
}

// A number of at most two digits.
fn put_under_100(out: &mut [u8], at: usize, n: u64) -> usize
    requires n_bound { n < 100 }
    requires room { at + length (decimal n) ≤ length out.old }
    ensures { PutAt out.old out.new at result (decimal n) }
{
    if n < 10 {
        return put_byte(out, at, b'0' + n as u8);
    }
    put_last_two(out, at, n)
}

// A number of at most four digits.
fn put_under_10000(out: &mut [u8], at: usize, n: u64) -> usize
    requires n_bound { n < 10000 }
    requires room { at + length (decimal n) ≤ length out.old }
    ensures { PutAt out.old out.new at result (decimal n) }
{
    if n < 100 {
        return put_under_100(out, at, n);
    }
    let next = put_under_100(out, at, n / 100);
    put_last_two(out, next, n)
}

// A number of more than four digits: the last two behind the others.
fn put_long(out: &mut [u8], at: usize, n: u64) -> usize
    requires n_bound { 10000 ≤ n }
    requires room { at + length (decimal n) ≤ length out.old }
    ensures { PutAt out.old out.new at result (decimal n) }
{
    let next = if n < 1000000 {
        put_under_10000(out, at, n / 100)
    } else {
        put_long(out, at, n / 100)
    };
    put_last_two(out, next, n)
}

// The digits of a number, the highest first. Most numbers are short: their tests come first, and they cost no call, as `put_long` does,
// since it calls itself. Not by `write!`, which answers a Result at each call: where the room is required there is nothing that it
// could refuse.
fn put_decimal(out: &mut [u8], at: usize, n: u64) -> usize
    requires { at + length (decimal n) ≤ length out.old }
    ensures { PutAt out.old out.new at result (decimal n) }
{
    if n < 10 {
        return put_byte(out, at, b'0' + n as u8);
    }
    if n < 10000 {
        return put_under_10000(out, at, n);
    }
    put_long(out, at, n)
}

// A space and a number.
fn put_number(out: &mut [u8], at: usize, n: u64) -> usize
    requires { at + 21 ≤ length out.old }
    ensures { WithinAt 21 out.old out.new at result (32 ∷ signed (pos n)) }
{
    let next = put_byte(out, at, b' ');
    put_decimal(out, next, n)
}

// The line of a letter and four numbers. They stand one after the other: in a loop, as that of `Text::line`, each would cost more.
fn put_four(out: &mut [u8], at: usize, letter: u8, i: u64, j: u64, k: u64, n: u64) -> usize
    requires { at + 86 ≤ length out.old }
    ensures { WithinAt 86 out.old out.new at result (text_line letter (pos i ∷ (pos j ∷ (pos k ∷ (pos n ∷ []))))) }
{
    let next = put_byte(out, at, letter);
    let next = put_number(out, next, i);
    let next = put_number(out, next, j);
    let next = put_number(out, next, k);
    let next = put_number(out, next, n);
    put_byte(out, next, b'\n')
}

// A space and a signed number.
fn put_signed(out: &mut [u8], at: usize, x: i32) -> usize
    requires { at + 12 ≤ length out.old }
    ensures { WithinAt 12 out.old out.new at result (32 ∷ signed x) }
{
    let next = put_byte(out, at, b' ');
    let negative = x < 0;
    if negative {
        let digits = put_byte(out, next, b'-');
        return put_decimal(out, digits, u64::from(x.unsigned_abs()));
    }
    put_decimal(out, next, u64::from(x.unsigned_abs()))
}

// The line of a record. It is not one function with `Text::line`: signed numbers are put otherwise, and a trait of both would be longer.
fn put_record(out: &mut [u8], at: usize, numbers: &[i32]) -> usize
    requires { at + (2 + 12 * length numbers.now) ≤ length out.old }
    ensures { WithinAt (2 + 12 * length numbers.now) out.old out.new at result (text_line 82 numbers.now) }
{
    let mut next = put_byte(out, at, b'R');
    for x in numbers {
        next = put_signed(out, next, *x);
    }
    put_byte(out, next, b'\n')
}

// What is put for a net that is not known.
const UNKNOWN: u8 = b'-';

// A space and a net, `-` where it is unknown.
fn put_net(out: &mut [u8], at: usize, net: Option<i32>) -> usize
    requires { at + 12 ≤ length out.old }
    ensures { WithinAt 12 out.old out.new at result (32 ∷ net_text (net_told net)) }
{
    match net {
        Some(x) => put_signed(out, at, x),
        None => {
            let next = put_byte(out, at, b' ');
            put_byte(out, next, UNKNOWN)
        }
    }
}

// A text in a space of bytes: what is put goes behind what is there, and everything else stays.
#[derive(Drop)]
pub struct Text<'a> {
    pub out: &'a mut [u8],
    pub used: usize,
    ghost inside: { used ≤ length out.now },
}

impl<'a> Text<'a> {
    ghost use Rattle.lines.specs.Puts.{Room, Put, Within};

    // No text yet.
    pub fn new(out: &'a mut [u8]) -> Text<'a>
        ensures used { result.used ≡ 0 }
        ensures bytes { result.out.now ≡ out.old }
        ensures same { result.out.ghost_name ≡ out.entry.ghost_name }
    {
        Text { out, used: 0 }
    }

    // The bytes of the text.
    pub fn bytes(&self) -> &[u8]
        ensures { result.now ≡ take self.now.used self.now.out.now }
    {
        &self.out[..self.used]
    }

    // How many more bytes the space takes.
    pub fn room(&self) -> usize
        ensures { result ≡ length self.now.out.now - self.now.used }
    {
        self.out.len() - self.used
    }

    // The text goes, and the space stays.
    pub fn clear(&mut self)
        ensures used { self.new.used ≡ 0 }
        ensures space { self.new.out ≡ self.old.out }
    {
        self.used = 0;
    }

    // One byte.
    pub fn push(&mut self, byte: u8)
        requires { Room self.old 1 }
        ensures { Put self.old self.new (byte ∷ []) }
    {
        self.out[self.used] = byte;
        self.used += 1;
    }

    // Some bytes.
    pub fn put(&mut self, bytes: &[u8])
        requires { Room self.old (length bytes.now) }
        ensures { Put self.old self.new bytes.now }
    {
        for byte in bytes {
            self.push(*byte);
        }
    }

    // The line of a letter and some numbers.
    pub fn line(&mut self, letter: u8, numbers: &[u64])
        requires { Room self.old (2 + 21 * length numbers.now) }
        ensures { Within (2 + 21 * length numbers.now) self.old self.new (text_line letter (map pos numbers.now)) }
    {
        let out = &mut *self.out;
        let mut at = put_byte(out, self.used, letter);
        for n in numbers {
            at = put_number(out, at, *n);
        }
        self.used = put_byte(out, at, b'\n');
    }

    // The lines of the first n records of a space.
    fn records(&mut self, space: &[i32], n: usize)
        requires room { Room self.old (74 * n) }
        requires n_in_bounds { n * 6 ≤ length space.now }
        ensures { Within (74 * n) self.old self.new (record_lines n space.now) }
    {
        let out = &mut *self.out;
        let mut at = self.used;
        for record in space.chunks_exact(6).take(n) {
            at = put_record(out, at, record);
        }
        self.used = at;
    }

    // What is printed of an event: its line, and the lines of its records, which stand in the space.
    pub fn event(&mut self, index: u64, answer: Result<Accepted, Refusal>, space: &[i32])
        requires answer_in_bounds { Room self.old (86 + 74 * answer_count answer) }
        requires answer_in_bounds_2 { answer_count answer * 6 ≤ length space.now }
        ensures { Within (86 + 74 * answer_count answer) self.old self.new (event_text index answer space.now) }
    {
        let (number, value, count) = match answer {
            Ok(Accepted { value, records }) => (0, value, records),
            Err(refusal) => (u32::from(refusal), 0, 0),
        };
        self.used = put_four(
            self.out,
            self.used,
            b'E',
            index,
            u64::from(number),
            u64::from(value),
            count as u64,
        );
        self.records(space, count);
    }

    // The line of a letter, a number and two nets, as they are told.
    pub fn told(&mut self, letter: u8, i: u64, x: Option<i32>, y: Option<i32>)
        requires { Room self.old 47 }
        ensures { Within 47 self.old self.new (told_line letter i (net_told x) (net_told y)) }
    {
        let out = &mut *self.out;
        let at = put_byte(out, self.used, letter);
        let at = put_number(out, at, i);
        let at = put_net(out, at, x);
        let at = put_net(out, at, y);
        self.used = put_byte(out, at, b'\n');
    }
}
