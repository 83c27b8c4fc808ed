ghost use Rattle.std.specs.Prelude.{◌≡◌, ℕ, ◌<◌, ◌≤◌, false, ◌||◌, length, take, ◌==◌, slice_index_or};
ghost use Rattle.climbing.specs.Climbs.{picked};
ghost use Rattle.finite.specs.Finite.{count, members};

use masks::has;

// Marks a number.
pub fn mark(table: &mut [bool; 1024], c: usize)
    ensures places { (k : ℕ) → k < 1024 → slice_index_or table.new k false ≡ (c == k || slice_index_or table.old k false) }
    ensures len { length table.new ≡ 1024 }
{
    if c < 1024 {
        table[c] = true;
    }
}

// Which numbers are chosen vertices whose place is in the mask.
pub fn picked_table(chosen: &[u16], mask: u64) -> [bool; 1024]
    requires { length chosen.now ≤ 64 }
    ensures places { (c : ℕ) → c < 1024 → slice_index_or result c false ≡ picked chosen.now mask c }
    ensures len { length result ≡ 1024 }
{
    let mut table = [false; 1024];
    for (i, c) in chosen.iter().enumerate() {
        if has(mask, i) {
            mark(&mut table, *c as usize);
        }
    }
    table
}

// Writes the numbers below `n` that are marked, rising, and says how many there are.
pub fn write_block(block: &mut [u16], n: usize, table: &[bool]) -> usize
    requires small { n ≤ 1024 }
    requires within { n ≤ length table.now }
    requires few { count (λ c. slice_index_or table.now c false) n ≤ 64 }
    requires fits { 64 ≤ length block.old }
    ensures len { result ≡ count (λ c. slice_index_or table.now c false) n }
    ensures items { take result block.new ≡ members (λ c. slice_index_or table.now c false) n }
{
    // By hand: the block is lent, and holds fewer numbers than it has places.
    let mut len = 0;
    for (c, marked) in table[..n].iter().enumerate() {
        if *marked {
            block[len] = c as u16;
            len += 1;
        }
    }
    len
}
