// What C and Rust call: the functions of the crate exports, each with its clauses. Their header is include/complex_book.h.
#![tactic(auto)]

ghost use Rattle.std.specs.Prelude.{◌≡◌};
ghost use Rattle.frames.specs.Frames.{judge_of};
ghost use Rattle.exports.specs.Exports.{ReadOut, WriteOut};

// Judges a frame: 0 where it carries an event, else its refusal, 2 or 3.
#[unsafe(no_mangle)]
pub extern "C" fn complex_book_judge(frame: &[u8]) -> u32
    ensures { result ≡ judge_of frame.now }
{
    exports::complex_book_judge(frame)
}

// Reads a frame: 0, and its kind and row as the first 20 values; or its refusal, 2 or 3; or 1 where there are fewer than 20 values.
#[unsafe(no_mangle)]
pub extern "C" fn complex_book_read(frame: &[u8], values: &mut [u32]) -> u32
    ensures { ReadOut frame.now values.old values.new result }
{
    exports::complex_book_read(frame, values)
}

// Writes the frame of the event that the first 20 values are: its length, above 3; or the refusal, 3 or 1.
#[unsafe(no_mangle)]
pub extern "C" fn complex_book_write(values: &[u32], space: &mut [u8]) -> u32
    ensures { WriteOut values.now space.old space.new result }
{
    exports::complex_book_write(values, space)
}
