// Standard input read into a block, and text written to standard output. The reader, and what prints and takes messages, are
// handed in.
#![tactic(auto)]

ghost use Rattle.std.specs.Prelude.{◌≡◌, ◌+◌, ◌-◌, ◌≤◌, length, take, drop};
ghost use Rattle.streams.specs.Added.{Added};
ghost use Rattle.streams.specs.Texts.{DrainsTo, SettlesTo, Drains, Settles};

use lines::Text;
use std::io::Read;

// Says on standard error that a read failed.
fn say_unread<R: Eprint>(rt: &R) {
    let _ = eprintln!(rt;
        "standard input: a read failed; what was read before it is all that was played"
    );
}

// One read into the block from n on. Answers the next end, or n where no more comes.
fn read_on<I: Read, R: Eprint>(reader: &mut I, rt: &R, block: &mut [u8], n: usize) -> usize
    requires { n ≤ length block.old }
    ensures { Added block.old block.new n result }
{
    match reader.read(&mut block[n..]) {
        Ok(got) => n + got,
        Err(_) => {
            say_unread(rt);
            n
        }
    }
}

// Reads until the block has `need` bytes or no more come. By a `while`, since how much a read gives is not known before it.
fn read_up<I: Read, R: Eprint>(
    reader: &mut I,
    rt: &R,
    block: &mut [u8],
    n: usize,
    need: usize,
) -> usize
    requires { n ≤ length block.old }
    ensures { Added block.old block.new n result }
{
    let mut m = n;
    while m < need {
        let k = read_on(reader, rt, block, m);
        if k == m {
            return m;
        }
        m = k;
    }
    m
}

// The input that was read and not yet taken: the bytes of a block from a place to an end.
#[derive(Drop)]
pub struct Input<'a> {
    pub block: &'a mut [u8],
    pub at: usize,
    pub end: usize,
    ghost order: { at ≤ «end» },
    ghost inside: { «end» ≤ length block.now },
}

impl<'a> Input<'a> {
    ghost use Rattle.streams.specs.Rests.{rest_of, More, Passed};

    // Nothing was read yet.
    pub fn new(block: &'a mut [u8]) -> Input<'a>
        ensures at { result.at ≡ 0 }
        ensures empty { result.end ≡ 0 }
        ensures bytes { result.block.now ≡ block.old }
        ensures same { result.block.ghost_name ≡ block.entry.ghost_name }
    {
        Input {
            block,
            at: 0,
            end: 0,
        }
    }

    // The bytes that are there.
    pub fn rest(&self) -> &[u8]
        ensures { result.now ≡ rest_of self.now }
    {
        &self.block[self.at..self.end]
    }

    // The first n bytes that are there are taken.
    pub fn consume(&mut self, n: usize)
        requires { self.old.at + n ≤ self.old.end }
        ensures { Passed self.old self.new n }
    {
        self.at += n;
    }

    // Reads until `need` bytes are there or no more come.
    pub fn fill<I: Read, R: Eprint>(&mut self, reader: &mut I, rt: &R, need: usize)
        ensures { More self.old self.new }
    {
        let n = self.end - self.at;
        if need <= n {
            return;
        }
        self.block.copy_within(self.at..self.end, 0);
        self.at = 0;
        self.end = read_up(reader, rt, self.block, n, need);
    }
}

// Writes the text out; where it is not taken whole, says so on standard error. A program has no other way to tell: its exit
// status is always 0.
pub fn write_out<R: Print + Eprint>(rt: &R, text: &[u8]) -> bool {
    let whole = rt.write_all(text).is_ok();
    if !whole {
        let _ = eprintln!(rt; "standard output: a write failed; what was printed is not whole");
    }
    whole
}

// Writes out a text, the first bytes of a space, where less than the room is left behind it. Answers its end after that, and
// whether the output takes more.
pub fn drain_bytes<R: Print + Eprint>(rt: &R, used: usize, out: &[u8], room: usize) -> (usize, bool)
    requires { (used ≤ length out.now) × (room ≤ length out.now) }
    ensures { DrainsTo used room (length out.now) result.0 }
{
    if room <= out.len() - used {
        return (used, true);
    }
    (0, write_out(rt, &out[..used]))
}

// The same, and all of it goes out where nothing whole is left of the input.
pub fn settle_bytes<R: Print + Eprint>(
    rt: &R,
    more: bool,
    used: usize,
    out: &[u8],
    room: usize,
) -> (usize, bool)
    requires { (used ≤ length out.now) × (room ≤ length out.now) }
    ensures { SettlesTo more used room (length out.now) result.0 }
{
    let least = if more { room } else { out.len() };
    drain_bytes(rt, used, out, least)
}

// The whole space of a text.
fn space_of<'a>(text: &'a Text) -> &'a [u8]
    ensures { result.now ≡ text.now.out.now }
{
    text.out
}

// Writes the text out where less than the room is left. Answers whether the output takes more.
pub fn drain<R: Print + Eprint>(rt: &R, text: &mut Text, room: usize) -> bool
    requires { room ≤ length text.old.out.now }
    ensures { Drains text.old text.new room }
{
    let (used, on) = drain_bytes(rt, text.used, space_of(text), room);
    text.used = used;
    on
}

// Writes the text out where less than the room is left, and all of it where nothing whole is left of the input: what is
// printed goes out before the wait for more.
pub fn settle<R: Print + Eprint>(rt: &R, text: &mut Text, more: bool, room: usize) -> bool
    requires { room ≤ length text.old.out.now }
    ensures { Settles text.old text.new more room }
{
    let (used, on) = settle_bytes(rt, more, text.used, space_of(text), room);
    text.used = used;
    on
}

// The block that the input is read into: the longest frame, with the two lengths of an item before it, and some more.
pub fn input_block() -> [u8; 69632]
    ensures { 69632 ≡ length result }
{
    [0; 69632]
}

// The space of the text: that of an event, and some more.
pub fn text_space() -> [u8; 204800]
    ensures { 204800 ≡ length result }
{
    [0; 204800]
}
