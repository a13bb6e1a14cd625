//! Copies pixels that are drawn already to the place of the next ones.
ghost use Rattle.std.specs.Prelude.{◌≡◌, ◌+◌, ◌≤◌, ◌++◌, length, slice_range, take};

/// How many pixels are copied at once.
const CHUNK: usize = 16;

/// A copy of `n` pixels from a place on, after the first `at`, which are drawn.
pub fn copy_back(out: &mut [u32], at: usize, from: usize, n: usize)
    requires drawn { from + n ≤ at }
    requires room { at + n ≤ length out.old }
    ensures { take (at + n) out.new ≡ take at out.old ++ slice_range (take at out.old) from (from + n) }
{
    let mut done = 0;
    for _ in 0..n / CHUNK {
        copy_chunk(out, at + done, from + done);
        done += CHUNK;
    }
    copy_rest(out, at + done, from + done, n - done);
}

/// A copy of as many pixels as are copied at once.
fn copy_chunk(out: &mut [u32], at: usize, from: usize)
    requires drawn { from + CHUNK ≤ at }
    requires room { at + CHUNK ≤ length out.old }
    ensures { take (at + CHUNK) out.new ≡ take at out.old ++ slice_range (take at out.old) from (from + CHUNK) }
{
    let (drawn, next) = out.split_at_mut(at);
    next[..CHUNK].copy_from_slice(&drawn[from..from + CHUNK]);
}

/// A copy of a few pixels, one by one.
fn copy_rest(out: &mut [u32], at: usize, from: usize, n: usize)
    requires drawn { from + n ≤ at }
    requires room { at + n ≤ length out.old }
    ensures { take (at + n) out.new ≡ take at out.old ++ slice_range (take at out.old) from (from + n) }
{
    for k in 0..n {
        out[at + k] = out[from + k];
    }
}
