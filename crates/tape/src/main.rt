// The program `tape`: frames from standard input; to standard output a line for each event, and one for each of its records.
#![tactic(auto)]

ghost use Rattle.std.specs.Prelude.{◌≡◌};
ghost use Rattle.base.specs.Chains.{unless_zero};
ghost use Rattle.lines.specs.Cuts.{needed_of, cut_of};
ghost use Rattle.lines.specs.Lines.{event_line};
ghost use Rattle.lines.specs.Puts.{Room, Within};
ghost use Rattle.streams.specs.Rests.{rest_of};
ghost use Rattle.tape.specs.Tapes.{Turned, Ended};

use book::Book;
use events::Refusal;
use lines::{Text, cut, needed};
use streams::Input;
use turns::{MeasuredProgram, Program, run, tell};

// The line of a last frame that is cut short, or whose length is under 4.
fn tell_cut(index: u64, space: &[i32], text: &mut Text)
    requires { Room text.old 189526 }
    ensures { Within 189526 text.old text.new (event_line index (Err Refusal.BadFrame)) }
{
    text.event(index, Err(Refusal::BadFrame), space);
}

// The last turn, where no whole frame comes: nothing, or refusal 2. The book and the input stay.
fn tell_end(input: &Input, index: u64, space: &[i32], text: &mut Text)
    requires nothing { cut_of (rest_of input.now) ≡ 0 }
    requires room { Room text.old 189526 }
    ensures { Ended input.now index text.old text.new }
{
    if input.at == input.end {
        return;
    }
    tell_cut(index, space, text);
}

// Frames, one after the other.
struct Frames;

impl Program for Frames {
    ghost needed_gives = { λ rest n. n ≡ needed_of rest };

    ghost first_of = { cut_of };

    ghost turned = { Turned };

    fn needed(&self, rest: &[u8]) -> usize {
        needed(rest)
    }

    fn first(&self, rest: &[u8]) -> Option<usize> {
        cut(rest)
    }

    fn turn<R: Print + Eprint>(
        &self,
        rt: &R,
        index: u64,
        book: &mut Book,
        input: &mut Input,
        space: &mut [i32],
        text: &mut Text,
    ) -> bool {
        let Some(n) = cut(input.rest()) else {
            tell_end(input, index, space, text);
            return false;
        };
        tell(book, index, &input.rest()[..n], space, text);
        input.consume(n);
        true
    }
}

impl MeasuredProgram for Frames {
    ghost needed_by = { needed_of };

    ghost needed_is = { λ rest n h. h };
}

fn main(rt: HostRuntime) {
    let mut reader = rt.stdin();
    run(&Frames, &mut reader, &rt);
}
