use masks::Members;
use pictures::Picture;

// Whether the members of `set` are all joined.
pub fn is_clique(p: &Picture, set: u64) -> bool {
    Members::of(set).all(|i| set & !p.row(i) == 1 << i)
}

// How many members a largest clique inside `mask` has, of a picture of at most 14 places, by a look at every set.
pub fn most_joined(p: &Picture, mask: u64) -> u32 {
    let mut most = 0;
    for set in 0..1 << 14 {
        if set & !mask == 0 && set >> p.count().min(14) == 0 && is_clique(p, set) {
            most = most.max(set.count_ones());
        }
    }
    most
}
