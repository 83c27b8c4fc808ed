//! Whether two lists are the rows of a graph, and where they first fail to be.
ghost use Rattle.std.specs.Prelude.{◌≡◌, ℕ, ◌+◌, ◌<◌, ◌≤◌, true, false, length, Decides, MatchOption, MatchResult};
ghost use Rattle.rows.specs.Rows.{rows, in_row, AtRow, SoundOffset, SoundEntry, SoundOffsets, SoundEntries, Sound, FirstBadOffset, FirstBadEntry, FirstBadIn, SoundRow, Misfit};

use graph::refusal::{Part, Refusal};

/// Whether `b` stands in row `a`.
fn row_has(offsets: &[u16], neighbours: &[u16], a: usize, b: usize) -> bool
    requires offsets { SoundOffsets offsets.now (length neighbours.now) }
    requires row { a < rows offsets.now }
    ensures { result ≡ in_row offsets.now neighbours.now a b }
{
    let from = offsets[a] as usize;
    let to = offsets[a + 1] as usize;
    neighbours[from..to].iter().any(|x| *x as usize == b)
}

/// Whether offset `i` keeps the rules.
fn sound_offset(offsets: &[u16], total: usize, i: usize) -> bool
    requires { i < length offsets.now }
    ensures { Decides result (SoundOffset offsets.now total i) }
{
    let least = if i == 0 { 0 } else { offsets[i - 1] };
    if offsets[i] < least || i == 0 && offsets[i] > 0 {
        return false;
    }
    i + 1 < offsets.len() || offsets[i] as usize == total
}

/// The first offset that breaks a rule.
fn bad_offset(offsets: &[u16], total: usize) -> Option<usize>
    ensures { MatchOption result (SoundOffsets offsets.now total) (FirstBadOffset offsets.now total) }
{
    if offsets.is_empty() {
        return Some(0);
    }
    (0..offsets.len()).find(|i| !sound_offset(offsets, total, *i))
}

/// Whether the neighbour at place `k`, in row `c`, keeps the rules.
fn sound_entry(offsets: &[u16], neighbours: &[u16], c: usize, k: usize) -> bool
    requires offsets { SoundOffsets offsets.now (length neighbours.now) }
    requires row { AtRow offsets.now c k }
    ensures { Decides result (SoundEntry offsets.now neighbours.now c k) }
{
    let b = neighbours[k] as usize;
    if b >= offsets.len() - 1 || b == c {
        return false;
    }
    if k > offsets[c] as usize && neighbours[k - 1] >= neighbours[k] {
        return false;
    }
    row_has(offsets, neighbours, b, c)
}

/// The first neighbour of row `c` that breaks a rule.
fn bad_in_row(offsets: &[u16], neighbours: &[u16], c: usize) -> Option<usize>
    requires offsets { SoundOffsets offsets.now (length neighbours.now) }
    requires row { c < rows offsets.now }
    ensures { MatchOption result (SoundRow offsets.now neighbours.now c) (FirstBadIn offsets.now neighbours.now c) }
{
    let from = offsets[c] as usize;
    let to = offsets[c + 1] as usize;
    (from..to).find(|k| !sound_entry(offsets, neighbours, c, *k))
}

/// The first neighbour that breaks a rule.
fn bad_entry(offsets: &[u16], neighbours: &[u16]) -> Option<usize>
    requires { SoundOffsets offsets.now (length neighbours.now) }
    ensures { MatchOption result (SoundEntries offsets.now neighbours.now) (FirstBadEntry offsets.now neighbours.now) }
{
    let count = offsets.len() - 1;
    for c in 0..count {
        if let Some(k) = bad_in_row(offsets, neighbours, c) {
            return Some(k);
        }
    }
    None
}

/// Whether the lists may be taken, and if not, why.
pub fn judge(offsets: &[u16], neighbours: &[u16]) -> Result<(), Refusal>
    ensures { MatchResult result (λ _. Sound offsets.now neighbours.now) (Misfit offsets.now neighbours.now) }
{
    if offsets.len() > 1025 || neighbours.len() > 32768 {
        return Err(Refusal::TooLarge);
    }
    if let Some(index) = bad_offset(offsets, neighbours.len()) {
        return Err(Refusal::BadList {
            part: Part::Offsets,
            index,
        });
    }
    if let Some(index) = bad_entry(offsets, neighbours) {
        return Err(Refusal::BadList {
            part: Part::Neighbours,
            index,
        });
    }
    Ok(())
}
