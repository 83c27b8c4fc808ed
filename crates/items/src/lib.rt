//! Items with a support.
#![tactic(auto)]

ghost use Rattle.std.specs.Prelude.{◌≡◌, ℕ, ◌<◌, ◌≤◌, Bool, true, false, List, length, take};
ghost use Rattle.finite.specs.Supports.{Falls};
ghost use Rattle.supports.specs.Peel.{Losers, alive};
ghost use Rattle.items.specs.Marks.{Clear, Same, Wiped};

pub mod vertices;

/// How many numbers the table has in which items are looked up.
pub const TABLE: usize = 33792;

/// Items, numbered from 0, each with a support among the living ones: a whole number that never rises when
/// items are taken out. What gives the items may need a list beside it, and makes a table to look them up.
pub trait Peeled<T> {
    ghost items: { Self → List T → ℕ };

    ghost room: { Self → List T → ℕ };

    ghost support: { Self → List T → (ℕ → Bool) → ℕ → ℕ };

    ghost proper: { Self → List T → Type 0 };

    ghost indexed: { Self → List T → List ℕ → Type 0 };

    /// How many items there are.
    fn item_count(&self, list: &[T]) -> usize
        ensures { result ≡ items self.now list.now };

    /// How many marks counting needs.
    fn mark_count(&self, list: &[T]) -> usize
        ensures { result ≡ room self.now list.now };

    /// Fills the table. Says whether the list is as it has to be.
    fn index(&self, list: &[T], table: &mut [u16]) -> bool
        requires few { items self.now list.now ≤ 16384 }
        requires room { 33792 ≤ length table.old }
        ensures made { result ≡ true → indexed self.now list.now table.new }
        ensures proper { result ≡ true → proper self.now list.now }
        ensures test { result ≡ false → proper self.now list.now → ⊥ };

    /// The support of an item among the living ones.
    fn support_of(
        &self,
        list: &[T],
        table: &[u16],
        i: usize,
        living: &[u8],
        marks: &mut [u8],
    ) -> usize
        requires ready { indexed self.now list.now table.now }
        requires within { i < items self.now list.now }
        requires lives { items self.now list.now ≤ length living.now }
        requires clear { Clear (room self.now list.now) marks.old }
        ensures value { result ≡ support self.now list.now (alive (items self.now list.now) living.now) i }
        ensures bound { result < 65536 }
        ensures same { Same marks.old marks.new };

    /// Writes the living items that lose a support when x is taken out. Returns how many they are.
    fn losers(
        &self,
        list: &[T],
        table: &[u16],
        x: usize,
        living: &[u8],
        marks: &mut [u8],
        out: &mut [u16],
    ) -> usize
        requires ready { indexed self.now list.now table.now }
        requires member { alive (items self.now list.now) living.now x ≡ true }
        requires lives { items self.now list.now ≤ length living.now }
        requires lost { items self.now list.now ≤ length out.old }
        requires clear { Clear (room self.now list.now) marks.old }
        ensures losers { Losers (support self.now list.now) (items self.now list.now) (alive (items self.now list.now) living.now) x (take result out.new) }
        ensures fits { result ≤ length out.new }
        ensures same { Same marks.old marks.new };

    ghost falls: { (x : Self) (list : List T) → Falls (support x list) };
}

/// Clears the first n marks, or all where they are fewer.
pub fn wipe(marks: &mut [u8], n: usize)
    ensures { Wiped n marks.old marks.new }
{
    let n = n.min(marks.len());
    marks[..n].fill(0);
}
