// A buffer of bytes: those that are still needed kept at its front, and how many it has. Nothing here knows what the bytes are.

#![tactic(auto)]

ghost use Rattle.std.specs.Prelude.{◌≡◌, ◌≤◌, length, take};
ghost use Rattle.buffers.specs.Keeping.{rest_of, kept_of};

// Moves the bytes from place from up to place to, or to the end, to the front of the buffer, and gives how many there are.
pub fn keep_rest(buffer: &mut [u8], from: usize, to: usize) -> usize
    ensures buffer { buffer.new ≡ kept_of buffer.old from to }
    ensures count { result ≡ length (rest_of buffer.old from to) }
    ensures within { result ≤ length buffer.new }
{
    let start = count_first(from, buffer);
    let count = count_first(to.saturating_sub(from), &buffer[start..]);
    buffer.copy_within(start..start + count, 0);
    count
}

// How many of the first n bytes a buffer has.
pub fn count_first(n: usize, buffer: &[u8]) -> usize
    ensures count { result ≡ length (take n buffer.now) }
    ensures within { result ≤ length buffer.now }
    ensures taken { result ≡ length (take result buffer.now) }
{
    n.min(buffer.len())
}
