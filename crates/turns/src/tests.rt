// A program that asks no more than `Program` does.
ghost use Rattle.std.specs.Prelude.{◌≡◌, ℕ, length, min};

use super::*;

// A strategy for each byte, of the series of the byte's number and the next; a byte 0 is the last. It does not say how many bytes it
// needs.
struct Strategies;

impl Program for Strategies {
    ghost first_of = { λ rest. min 1 (length rest) };

    ghost turned = { λ t index x. Unit {0} };

    fn needed(&self, rest: &[u8]) -> usize {
        1
    }

    fn first(&self, rest: &[u8]) -> Option<usize> {
        if rest.len() == 0 { None } else { Some(1) }
    }

    fn turn<R: Print + Eprint>(
        &self,
        rt: &R,
        index: u64,
        book: &mut Book,
        input: &mut Input,
        space: &mut [i32],
        text: &mut Text,
    ) -> bool {
        let rest = input.rest();
        if rest.len() == 0 {
            return false;
        }
        let low = rest[0] & 15;
        input.consume(1);
        if low == 0 {
            return false;
        }
        let _ = book.step(&[11, 0, 1, 0, 2, low, 0, 1, low + 1, 1, 1], space);
        true
    }
}

// It runs, up to the byte 0: the book that is left holds the three strategies before it, and no more.
#[test]
fn a_program_that_does_not_say_what_it_needs_runs(rt: HostRuntime) {
    let mut reader: &[u8] = &[3, 7, 5, 0, 9];
    let book = run(&Strategies, &mut reader, &rt);
    assert!(rt; book.shut_legs(2).is_ok());
    assert!(rt; book.shut_legs(3).is_err());
}
