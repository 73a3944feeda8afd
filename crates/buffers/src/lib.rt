// Bytes written to the start of a buffer, and one value to every entry.
#![tactic(auto)]

ghost use Rattle.std.specs.Prelude.{◌≡◌, ◌≤◌, length, replicate};
ghost use Rattle.buffers.specs.Buffers.{overwrite};

// How many bytes were written. The rest of the buffer stays [error-writes-nothing].
#[tactic(auto, unfolding(crate::specs::Buffers::overwrite))]
pub fn write(bytes: &[u8], out: &mut [u8]) -> usize
    requires { length bytes.now ≤ length out.old }
    ensures { (result ≡ length bytes.now) × (out.new ≡ overwrite bytes.now out.old) }
{
    let n = bytes.len();
    out[..n].copy_from_slice(bytes);
    n
}

// The value in every entry.
pub fn fill(value: u32, out: &mut [u32])
    ensures { out.new ≡ replicate (length out.old) value }
{
    out.fill(value);
}
