ghost use Rattle.std.specs.Prelude.{◌≡◌, ◌<◌, ◌≤◌, ◌&&◌, nat_lt};
ghost use Rattle.kernels.specs.Kernels.{joined, places, word_at};

use super::Kernel;
use masks::has;

impl Kernel {
    /// How many places there are.
    pub fn count(&self) -> usize
        ensures value { result ≡ places self.now }
        ensures bound { result ≤ 256 }
    {
        self.count
    }

    /// Whether `i` and `j` are places that are joined.
    pub fn joined(&self, i: usize, j: usize) -> bool
        ensures { result ≡ (nat_lt i (places self.now) && (nat_lt j (places self.now) && joined self.now i j)) }
    {
        i < self.count && j < self.count && has(self.rows[i][j / 64], j % 64)
    }

    /// The word `w` of row `i`, one of four: the places from `64 * w` on that are joined to `i`.
    pub fn word(&self, i: usize, w: usize) -> u64
        ensures { i < 256 → w < 4 → result ≡ word_at self.now i w }
    {
        if i < 256 && w < 4 { self.rows[i][w] } else { 0 }
    }
}
