// The fields of a frame, one after the other from its fifth byte, and the row of their values.
ghost use Rattle.std.specs.Prelude.{◌≡◌, ◌+◌, ◌≤◌, length};
ghost use Rattle.std.proofs.lemmas.List.Edits.{sets};
ghost use Rattle.events.specs.Fields.{width, layout, offset, Narrow};
ghost use Rattle.frames.specs.Bodies.{value_at, value_bytes, row_n, body_n};

use super::numbers::{number, put};
use events::Field;
use events::table::{present, raw};

// The value of a field at a place of the frame.
#[tactic(auto, unfolding(crate::specs::Bodies::value_at))]
pub(crate) fn value(frame: &[u8], at: usize, field: Field) -> u32
    requires field_in_bounds { at + width field ≤ length frame.now }
    requires field_bound { width field ≤ 4 }
    ensures { result ≡ value_at field frame.now at }
{
    number(frame, at, field.0).wrapping_add(field.3)
}

// The values of the fields, one after the other from the fifth byte.
pub(crate) fn decode(frame: &[u8], fields: &[Field; 19], m: usize) -> [u32; 19]
    requires m_in_bounds { offset (layout fields.now m) 19 ≤ length frame.now }
    requires narrow { Narrow (layout fields.now m) }
    ensures { result ≡ row_n (layout fields.now m) frame.now 19 }
{
    let mut row: [u32; 19] = [0; 19];
    let mut at: usize = 4;
    for (i, entry) in fields.iter().enumerate() {
        let field = present(*entry, m, i);
        row[i] = value(frame, at, field);
        at += field.0;
    }
    row
}

// The bytes of a value at a place of the space.
#[tactic(auto, unfolding(crate::specs::Bodies::value_bytes))]
fn write_value(space: &mut [u8], at: usize, field: Field, v: u32)
    requires { at + width field ≤ length space.old }
    ensures { space.new ≡ sets space.old at (value_bytes field v) }
{
    put(space, at, field.0, raw(field, v));
}

// The bytes of the values, one after the other from the fifth byte.
pub(crate) fn encode(space: &mut [u8], fields: [Field; 19], m: usize, row: [u32; 19])
    requires { offset (layout fields m) 19 ≤ length space.old }
    ensures { space.new ≡ sets space.old 4 (body_n (layout fields m) row 19) }
{
    let mut at: usize = 4;
    for (i, v) in row.iter().enumerate() {
        let field = present(fields[i], m, i);
        write_value(space, at, field, *v);
        at += field.0;
    }
}
