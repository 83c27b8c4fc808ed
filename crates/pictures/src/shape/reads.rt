ghost use Rattle.std.specs.Prelude.{◌≡◌, ◌<◌, ◌≤◌};
ghost use Rattle.pictures.specs.Pictures.{neighbours, places};

use super::Picture;

impl Picture {
    // How many places there are.
    pub fn count(&self) -> usize
        ensures value { result ≡ places self.now }
        ensures bound { result ≤ 64 }
    {
        self.count
    }

    // The mask of the neighbours of `i`: 0 where there is no such place.
    pub fn row(&self, i: usize) -> u64
        ensures { result ≡ neighbours self.now i }
    {
        if i < 64 { self.rows[i] } else { 0 }
    }
}
