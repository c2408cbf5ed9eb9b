// Numbers of some bytes, the lowest byte first.
ghost use Rattle.std.specs.Prelude.{◌≡◌, ◌+◌, ◌<◌, ◌≤◌, length};
ghost use Rattle.std.proofs.lemmas.List.Edits.{sets};
ghost use Rattle.frames.specs.Number.{number, bytes};

// The number of width bytes at a place of the frame, read from its highest byte, the last, to its lowest.
pub(crate) fn number(frame: &[u8], at: usize, width: usize) -> u32
    requires width_in_bounds { at + width ≤ length frame.now }
    requires width_bound { width ≤ 4 }
    ensures { result ≡ number width frame.now at }
{
    let mut v: u32 = 0;
    for i in 0..width {
        let left = width - 1 - i;
        v = v * 256 + u32::from(frame[at + left]);
    }
    v
}

// The bytes of a number at a place of the space, its lowest byte first.
pub(crate) fn put(space: &mut [u8], at: usize, width: usize, value: u32)
    requires { at + width ≤ length space.old }
    ensures { space.new ≡ sets space.old at (bytes width value) }
{
    let mut v = value;
    for i in 0..width {
        space[at + i] = (v % 256) as u8;
        v /= 256;
    }
}
