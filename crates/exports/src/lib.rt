// The judge, and the reader and the writer over plain numbers, a kind's number and then the row of 19. C and Rust call them through
// the crate exports_c.
#![tactic(auto)]

ghost use Rattle.std.specs.Prelude.{◌≡◌, ◌++◌, ◌≤◌, length, drop};
ghost use Rattle.frames.specs.Frames.{judge_of};
ghost use Rattle.exports.specs.Exports.{values_of, event_in, ReadOut, WrittenOut, WriteOut};

use event_rows::{event_of, row_of};
use events::{Event, Kind, Refusal};
use frames::{judge, read, write};

// The event's 20 numbers at the start of the values.
fn fill(event: Event, values: &mut [u32])
    requires { 20 ≤ length values.old }
    ensures { values.new ≡ values_of event ++ drop 20 values.old }
{
    values[0] = u32::from(Kind::from(event));
    values[1..20].copy_from_slice(&row_of(event));
}

// The event of 20 numbers, or the refusal of an unknown kind.
fn event_in(values: &[u32]) -> Result<Event, Refusal>
    requires { 20 ≤ length values.now }
    ensures { result ≡ event_in values.now }
{
    let kind = Kind::try_from(values[0])?;
    let mut row = [0; 19];
    row.copy_from_slice(&values[1..20]);
    event_of(kind, row)
}

// The writer, with its answer as a number.
fn send(event: Event, space: &mut [u8]) -> u32
    ensures { WrittenOut event space.old space.new result }
{
    match write(event, space) {
        Ok(n) => n as u32,
        Err(refusal) => u32::from(refusal),
    }
}

// Judges a frame: 0 where it carries an event, else its refusal, 2 or 3.
pub fn complex_book_judge(frame: &[u8]) -> u32
    ensures { result ≡ judge_of frame.now }
{
    match judge(frame) {
        Ok(()) => 0,
        Err(refusal) => u32::from(refusal),
    }
}

// Reads a frame: 0, and its kind and row as the first 20 values; or its refusal, 2 or 3; or 1 where there are fewer than 20 values.
pub fn complex_book_read(frame: &[u8], values: &mut [u32]) -> u32
    ensures { ReadOut frame.now values.old values.new result }
{
    if values.len() < 20 {
        return 1;
    }
    match read(frame) {
        Ok(e) => {
            fill(e, values);
            0
        }
        Err(refusal) => u32::from(refusal),
    }
}

// Writes the frame of the event that the first 20 values are: its length, above 3; or the refusal, 3 or 1.
pub fn complex_book_write(values: &[u32], space: &mut [u8]) -> u32
    ensures { WriteOut values.now space.old space.new result }
{
    if values.len() < 20 {
        return 3;
    }
    match event_in(values) {
        Ok(e) => send(e, space),
        Err(_) => 3,
    }
}
