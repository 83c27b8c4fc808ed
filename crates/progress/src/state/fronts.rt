ghost use Rattle.std.specs.Prelude.{◌≡◌, take};

use arrayvec::ArrayVec;

// The first `len` of a table, or all where it has fewer.
// By hand: a vector made of the whole table and cut to `len` is filled twice.
pub(crate) fn front<T: Copy + Default + Drop, const N: usize>(
    table: &[T; N],
    len: usize,
) -> ArrayVec<T, N>
    ensures { result.items ≡ take len table.now }
{
    let mut list = ArrayVec::new();
    list.try_extend_from_slice(&table[..len.min(N)]).unwrap();
    list
}
