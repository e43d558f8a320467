// Numbers written into the caller's buffer.
ghost use Rattle.std.specs.Prelude.{◌≡◌, ◌+◌, ◌≤◌, length};
ghost use Rattle.answer.specs.Bytes.{long_bytes, put_at};

// Writes a number as four bytes, the low one first.
pub fn put_long(out: &mut [u8], at: usize, x: u32)
    requires { at + 4 ≤ length out.old }
    ensures { out.new ≡ put_at out.old at (long_bytes x) }
{
    out[at..at + 4].copy_from_slice(&x.to_le_bytes());
}
