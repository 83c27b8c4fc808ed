ghost use Rattle.std.specs.Prelude.{◌≡◌, ℕ, ◌<◌, ◌≤◌, false, ◌&&◌, ◌||◌, ◌==◌, ◌≢◌};
ghost use Rattle.pictures.specs.Pictures.{joined, places};

use super::Picture;
use masks::with;

impl Picture {
    // The picture without places.
    pub fn empty() -> Self
        ensures size { places result ≡ 0 }
        ensures none { (i j : ℕ) → joined result i j ≡ false }
    {
        Picture::blank(0)
    }

    // `count` places, none joined to another.
    pub(crate) fn blank(count: usize) -> Self
        requires { count ≤ 64 }
        ensures size { places result ≡ count }
        ensures none { (i j : ℕ) → joined result i j ≡ false }
    {
        Picture {
            count,
            rows: [0; 64],
        }
    }

    // Joins `a` and `b`.
    pub(crate) fn join(&mut self, a: usize, b: usize)
        requires first { a < places self.old }
        requires second { b < places self.old }
        requires apart { a ≢ b }
        ensures size { places self.new ≡ places self.old }
        ensures joins { (i j : ℕ) → joined self.new i j ≡ (joined self.old i j || ((i == a && j == b) || (i == b && j == a))) }
    {
        self.rows[a] = with(self.rows[a], b);
        self.rows[b] = with(self.rows[b], a);
    }
}
