ghost use Rattle.searching.specs.Answers.{Answers};

use crate::branching::Branching;
use masks::{below, highest, meet, with, without};
use pictures::Picture;

// A clique that is picked, the places that may still be added to it, and those of them that are left to branch on.
#[derive(Clone, Copy, Default)]
struct Level {
    picked: u64,
    spare: u64,
    branch: u64,
}

// A largest clique inside `mask`, if it has more than `size` members. Places beyond the picture's count are passed over.
// By hand: the levels are a table with a height, since a vector's `pop` writes a blank level at each turn, and the search
// took half as many steps again.
pub fn search<R: Branching>(rule: &R, p: &Picture, mask: u64, size: usize) -> Option<u64>
    ensures { Answers p.now mask size result }
{
    let mut best = None;
    let mut most = size;
    let spare = meet(mask, below(p.count()));
    let mut stack = [Level::default(); 65];
    stack[0] = Level {
        picked: 0,
        spare,
        branch: rule.first(p, spare, size),
    };
    let mut height: usize = 1;
    while height > 0 {
        let top = height - 1;
        let level = stack[top];
        let branch = rule.again(p, level.spare, level.branch, most - top);
        if branch == 0 {
            height = top;
        } else {
            let v = highest(branch);
            let rest = without(level.spare, v);
            let next = meet(rest, p.row(v));
            let chosen = with(level.picked, v);
            if height > most {
                most = height;
                best = Some(chosen);
            }
            stack[top] = Level {
                spare: rest,
                branch: without(branch, v),
                ..level
            };
            stack[height] = Level {
                picked: chosen,
                spare: next,
                branch: rule.first(p, next, most - height),
            };
            height += 1;
        }
    }
    best
}
