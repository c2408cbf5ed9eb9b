// Frames of bytes: which are refused, the event that a frame carries, and the frame of an event.
#![tactic(auto)]

ghost use Rattle.std.specs.Prelude.{◌≡◌, ◌≤◌, true, length};
ghost use Rattle.std.proofs.lemmas.List.Edits.{sets};
ghost use Rattle.events.specs.Rows.{fitting, length_in};
ghost use Rattle.frames.specs.Frames.{count_at, judge_number, judge_of, read_of, frame_of, Wrote};

mod bodies; // the fields of a frame
mod carried; // the event of a frame, by its kind
pub mod numbers; // numbers of some bytes

use bodies::encode;
use carried::carried;
use event_rows::{fits, length_in, row_of};
use events::kinds::length_of;
use events::table::fields_of;
use events::{Event, Kind, Refusal};
use numbers::{number, put};

// The fifth byte, a strategy's count; 0 where there is none.
fn count_at(frame: &[u8]) -> u32
    ensures { result ≡ count_at frame.now }
{
    frame.get(4).map_or(0, |count| u32::from(*count))
}

// The event that a frame carries, or its refusal: 2 or 3.
pub fn read(frame: &[u8]) -> Result<Event, Refusal>
    ensures { result ≡ read_of frame.now }
{
    let n = frame.len();
    if n < 4 || number(frame, 0, 2) as usize != n {
        return Err(Refusal::BadFrame);
    }
    let kind = Kind::try_from(number(frame, 2, 2))?;
    if length_of(kind, count_at(frame)) != n {
        return Err(Refusal::BadFrame);
    }
    carried(kind, frame)
}

// Whether a frame carries an event, else its refusal: 2 or 3.
pub fn judge(frame: &[u8]) -> Result<(), Refusal>
    ensures { judge_number result ≡ judge_of frame.now }
{
    read(frame)?;
    Ok(())
}

// The event's frame at the start of the space.
fn write_frame(event: Event, space: &mut [u8])
    requires event_value { fitting event ≡ true }
    requires event_in_bounds { length_in event ≤ length space.old }
    ensures { space.new ≡ sets space.old 0 (frame_of event) }
{
    let kind = Kind::from(event);
    let n = length_in(event);
    put(space, 0, 2, n as u32);
    put(space, 2, 2, u32::from(kind));
    encode(space, fields_of(kind), n - 4, row_of(event));
}

// Writes the event's frame, and answers its length; or refuses with 3, or with 1 where the space is shorter.
pub fn write(event: Event, space: &mut [u8]) -> Result<usize, Refusal>
    ensures { Wrote event space.old space.new result }
{
    if !fits(event) {
        return Err(Refusal::BadField);
    }
    let n = length_in(event);
    if space.len() < n {
        return Err(Refusal::ShortSpace);
    }
    write_frame(event, space);
    Ok(n)
}
