// Runs of pixels that stand in one window of 128 numbers, from a multiple of 128 on: each difference among them takes
// one octet, and where one of them is in its type, all are.
ghost use Rattle.std.specs.Int.{w64, cast_unsigned};
ghost use Rattle.std.specs.Prelude.{bit_xor, ◌≡◌, ℕ, ◌+◌, ◌<◌, ◌≤◌, true, length, pos, slice_index_or};
ghost use Rattle.cbf_measure.specs.Window.{SameWindow, WindowRun};

// Below 128 where both stand in one window.
fn unlike(y: i64, z: i64) -> u64
    ensures { result ≡ bit_xor (cast_unsigned w64 y) (cast_unsigned w64 z) }
{
    y.cast_unsigned() ^ z.cast_unsigned()
}

// Whether 32 pixels stand in the window of last.
fn same_window(block: &[i64], last: i64) -> bool
    requires { length block.now ≡ 32 }
    ensures { result ≡ true → (j : ℕ) → j < 32 → SameWindow (slice_index_or block.now j (pos 0)) last }
{
    let mut all = 0;
    for j in 0..32 {
        all |= unlike(block[j], last);
    }
    all < 128
}

// How many pixels from the first on stand in the window of last, in blocks of 32. The first is tested by itself, which
// spares the test of a block where most pixels are far apart.
#[inline(always)]
pub fn window_run(pixels: &[i64], last: i64) -> usize
    ensures { WindowRun pixels.now 0 last result }
{
    if pixels.is_empty() || 128 <= unlike(pixels[0], last) {
        return 0;
    }
    let mut n = 0;
    // no `chunks`: the place where the blocks end is the answer
    while 32 <= pixels.len() - n && same_window(&pixels[n..n + 32], last) {
        n += 32;
    }
    n
}

// How many pixels the next part has that stand in no window, where n are left: at least seven, unless fewer are left.
pub fn part(n: usize) -> usize
    ensures { (result ≤ n) × (result ≤ 128) × (0 < n → 0 < result) × ((m : ℕ) → m ≤ 7 → m ≤ n → m ≤ result) }
{
    n.min(128)
}
