// A turn of a program that calls the book: the frame of an event goes to the book, and what is printed of it goes behind the text.
// And the turns of a program, from the first book on.
#![tactic(auto)]

ghost use Rattle.std.specs.Prelude.{◌≡◌, true, List, ℕ, ◌+◌, ◌≤◌, length};
ghost use Rattle.base.specs.Chains.{unless_zero};
ghost use Rattle.rules.specs.Sizes.{record_space};
ghost use Rattle.lines.specs.Puts.{Room};
ghost use Rattle.streams.specs.Rests.{More};
ghost use Rattle.turns.specs.Turns.{Tells, Turning, Left};

use book::Book;
use lines::Text;
use std::io::Read;
use streams::{Input, input_block, settle, text_space, write_out};

// The bytes of text that one event needs at most.
pub const ROOM: usize = 189526;

// One event: its frame goes to the book, with a record space of any length, and what is printed of it goes behind the text.
pub fn tell(book: &mut Book, index: u64, frame: &[u8], space: &mut [i32], text: &mut Text)
    requires { Room text.old 189526 }
    ensures { Tells book.old.state index frame.now (length space.old) text.old text.new book.new }
{
    let answer = book.step(frame, space);
    text.event(index, answer, space);
}

// The record space of an event.
pub fn record_space() -> [i32; Book::RECORD_SPACE]
    ensures { record_space ≡ length result }
{
    [0; Book::RECORD_SPACE]
}

// What a program does with its input: a turn for each piece of it, and one at its end.
pub trait Program {
    // What `needed` answers of the rest of the input; a program that does not say leaves it open.
    ghost needed_gives: { List ℕ → ℕ → Type 0 } = { λ _ _. Unit {0} };

    ghost first_of: { List ℕ → ℕ };

    ghost turned: { Turning };

    // How many bytes of the rest of the input must be there to judge its first piece.
    fn needed(&self, rest: &[u8]) -> usize
        ensures { needed_gives rest.now result };

    // The length of the first piece of the rest of the input; none where it is not whole.
    fn first(&self, rest: &[u8]) -> Option<usize>
        ensures { result ≡ unless_zero (first_of rest.now) };

    // A turn. Answers whether more is to come.
    fn turn<R: Print + Eprint>(
        &self,
        rt: &R,
        index: u64,
        book: &mut Book,
        input: &mut Input,
        space: &mut [i32],
        text: &mut Text,
    ) -> bool
        requires space_len { length space.old ≡ record_space }
        requires room { Room text.old 189526 }
        ensures turned { turned (record { book = book.old; input = input.old; text = text.old; on = true }) index (record { book = book.new; input = input.new; text = text.new; on = result }) }
        ensures size { length text.new.out.now ≡ length text.old.out.now };
}

// A program that says what `needed` answers: what the rest of the input alone decides.
pub trait MeasuredProgram: Program {
    ghost needed_by: { List ℕ → ℕ };

    ghost needed_is: { (rest : List ℕ) (n : ℕ) → Self.needed_gives rest n → n ≡ needed_by rest };
}

// Reads until the first piece of the rest is whole or no more comes. Mostly it is there already.
fn fill<P: Program, I: Read, R: Eprint>(program: &P, reader: &mut I, rt: &R, input: &mut Input)
    ensures { More input.old input.new }
{
    let need = program.needed(input.rest());
    input.fill(reader, rt, need);
    if need <= input.rest().len() {
        let need = program.needed(input.rest());
        input.fill(reader, rt, need);
    }
}

// Turns, until the input ends or the output takes no more. Answers the book that they leave. The index stays below the largest number.
pub fn run<P: Program, I: Read, R: Print + Eprint>(program: &P, reader: &mut I, rt: &R) -> Book
    ensures { Left P.turned result }
{
    let mut block = input_block();
    let mut space = record_space();
    let mut out = text_space();
    let mut book = Book::first();
    let mut input = Input::new(&mut block);
    let mut text = Text::new(&mut out);
    for index in 0..u64::MAX {
        fill(program, reader, rt, &mut input);
        let on = program.turn(rt, index, &mut book, &mut input, &mut space, &mut text);
        if !on {
            break;
        }
        let more = program.first(input.rest()).is_some();
        if !settle(rt, &mut text, more, ROOM) {
            break;
        }
    }
    write_out(rt, text.bytes());
    book
}

#[cfg(test)]
mod tests; // a program that asks no more than `Program` does
