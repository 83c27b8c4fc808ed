//! The lines of a sheet, read and tested one by one.
#![tactic(auto)]

ghost use Rattle.std.specs.Prelude.{◌≡◌, ℕ, ◌+◌, ◌^◌, ◌<◌, ◌≤◌, true, false, cond, List, [], length, MatchResult, nat_lt};
ghost use Rattle.fields.specs.Parts.{parts};
ghost use Rattle.graph.specs.declared.edge.Edge.{Edge as Pair};
ghost use Rattle.grammar.specs.Lines.{field};
ghost use Rattle.graph.specs.Edges.{edge, above, Good};
ghost use Rattle.grammar.specs.Sheet.{judge, fine, closed, states, fault, walk, outcome, limit, written, plain, Reads};
ghost use Rattle.graph.specs.Refusals.{number};
ghost use Rattle.lines.specs.Kept.{IsFault, told, Refused};
ghost use Rattle.reading.specs.Read.{Begun, Ends, ReadInto, Stated, Walked};

use fields::cut;
use graph::edge::Edge;
use graph::refusal::Refusal;
use lines::{Fault, Figure, Line, letter, read_line};

// The most numbers and the most clashes of a stock.
const NUMBERS: u32 = 1024;

const CLASHES: u32 = 16384;

// How many numbers a stock has, and how many clashes.
#[derive(Clone, Copy)]
pub struct Size {
    pub n: u32,
    pub clashes: u32,
}

// A line of a sheet, without its line feed, and which it is.
#[derive(Clone, Copy)]
struct Numbered<'a> {
    text: &'a [u8],
    at: usize,
}

impl<'a> Numbered<'a> {
    // The fault of the line's first field.
    fn refused(self, refusal: Refusal) -> Fault<'a>
        ensures { IsFault (number refusal) self.entry.at 1 (field (parts 9 self.entry.text.now) 0) result }
    {
        Fault::at(refusal, self.at, 1, letter(self.text))
    }
}

// How far the lines are walked: the size that was announced, how many clashes stood, and the last of them.
#[derive(Clone, Copy)]
struct Walk {
    size: Size,
    done: u32,
    previous: Option<Edge>,
}

impl Walk {
    // The clash of the next line.
    fn judge_line<'a>(
        self,
        line: Numbered<'a>,
        a: Figure<'a>,
        b: Figure<'a>,
    ) -> Result<Edge, Fault<'a>>
        requires small { self.size.n ≤ 1024 }
        requires shown { (a.shown.now ≡ field (parts 9 line.text.now) 1) × (b.shown.now ≡ field (parts 9 line.text.now) 2) }
        ensures { MatchResult result (λ e. (judge self.size.n self.size.clashes self.done self.previous a.entry.value b.entry.value ≡ fine) × (e ≡ edge a.entry.value b.entry.value)) (λ f. Refused (judge self.size.n self.size.clashes self.done self.previous a.entry.value b.entry.value) line.entry.text.now line.entry.at f) }
    {
        if self.done >= self.size.clashes {
            return Err(line.refused(Refusal::Miscounted));
        }
        if a.value >= self.size.n {
            return Err(Fault::at(Refusal::OutOfRange, line.at, 2, a.shown));
        }
        if b.value >= self.size.n {
            return Err(Fault::at(Refusal::OutOfRange, line.at, 3, b.shown));
        }
        let e = Edge {
            a: a.value as u16,
            b: b.value as u16,
        };
        if a.value < b.value && e.is_above(self.previous) {
            return Ok(e);
        }
        Err(line.refused(Refusal::Unordered))
    }

    // The end line; `more` is what follows it.
    fn finish<'a>(self, line: Numbered<'a>, more: &'a [u8]) -> Result<(), Fault<'a>>
        requires { line.at + 1 < 2 ^ 64 }
        ensures { MatchResult result (λ _. Ends self.size.n self.size.clashes line.entry.text.now line.entry.at self.done more.now (λ n es. states n es)) (λ f. Ends self.size.n self.size.clashes line.entry.text.now line.entry.at self.done more.now (λ _ _. told f)) }
    {
        if self.done < self.size.clashes {
            return Err(line.refused(Refusal::Miscounted));
        }
        if !more.is_empty() {
            let next = Numbered {
                text: cut(more, b'\n').front,
                at: line.at + 1,
            };
            return Err(next.refused(Refusal::BadLine));
        }
        Ok(())
    }
}

// Input that stops before its end.
fn early<'a>(at: usize) -> Fault<'a>
    ensures { told result ≡ fault 9 at 1 [] }
{
    Fault::at(Refusal::BadLine, at, 1, &[])
}

// Reads the lines behind the size line, keeps the clashes for which there is room, and counts them.
fn walk_lines<'a>(text: &'a [u8], size: Size, edges: &mut [Edge]) -> Result<u32, Fault<'a>>
    requires small { size.n ≤ 1024 }
    requires few { size.clashes ≤ 16384 }
    requires fits { length text.now + 2 < 2 ^ 64 }
    ensures { MatchResult result (λ d. Walked (walk size.n size.clashes [] 2 (parts 10 text.now)) size.n edges.old edges.new d) (λ f. walk size.n size.clashes [] 2 (parts 10 text.now) ≡ told f) }
{
    let mut rest = text;
    let mut at = 2usize;
    let mut walk = Walk {
        size,
        done: 0,
        previous: None,
    };
    // By hand: the end line needs what is left behind it, which an iterator over lines keeps to itself.
    loop {
        let piece = cut(rest, b'\n');
        let Some(more) = piece.rest else {
            return Err(early(at));
        };
        let line = Numbered {
            text: piece.front,
            at,
        };
        match read_line(piece.front, at)? {
            Line::Size { .. } => return Err(line.refused(Refusal::BadLine)),
            Line::Clash { a, b } => {
                let e = walk.judge_line(line, a, b)?;
                if (walk.done as usize) < edges.len() {
                    edges[walk.done as usize] = e;
                }
                walk.done += 1;
                walk.previous = Some(e);
            }
            Line::Remark(_) => {}
            Line::End => {
                walk.finish(line, more)?;
                return Ok(walk.done);
            }
        }
        rest = more;
        at += 1;
    }
}

// The size line, and the lines behind it.
#[derive(Clone, Copy)]
struct Opened<'a> {
    size: Size,
    rest: &'a [u8],
}

fn open_sheet<'a>(sheet: &'a [u8]) -> Result<Opened<'a>, Fault<'a>>
    ensures { MatchResult result (λ o. Begun sheet.now o) (λ f. outcome sheet.now ≡ told f) }
{
    let piece = cut(sheet, b'\n');
    let Some(rest) = piece.rest else {
        return Err(early(1));
    };
    let line = Numbered {
        text: piece.front,
        at: 1,
    };
    let Line::Size { n, m } = read_line(piece.front, 1)? else {
        return Err(line.refused(Refusal::BadLine));
    };
    if n.value > NUMBERS || m.value > CLASHES {
        return Err(line.refused(Refusal::TooLarge));
    }
    Ok(Opened {
        size: Size {
            n: n.value,
            clashes: m.value,
        },
        rest,
    })
}

// What the sheet states of its size, or its first fault.
pub fn check<'a>(sheet: &'a [u8]) -> Result<Size, Fault<'a>>
    ensures { MatchResult result (λ t. Stated sheet.now t.n t.clashes) (λ f. outcome sheet.now ≡ told f) }
{
    let opened = open_sheet(sheet)?;
    let mut none: [Edge; 0] = [];
    let clashes = walk_lines(opened.rest, opened.size, &mut none)?;
    Ok(Size {
        n: opened.size.n,
        clashes,
    })
}

// The clashes that the sheet states, written to the front of `edges`. The lines are tested first, and then whether there is room.
pub fn read_edges<'a>(sheet: &'a [u8], edges: &mut [Edge]) -> Result<Size, Fault<'a>>
    ensures { MatchResult result (λ t. ReadInto sheet.now t.n t.clashes edges.old edges.new) (λ f. (limit (λ _ es. nat_lt (length edges.old) (length es)) (outcome sheet.now) ≡ told f) × (edges.new ≡ edges.old)) }
{
    let opened = open_sheet(sheet)?;
    let mut none: [Edge; 0] = [];
    let count = walk_lines(opened.rest, opened.size, &mut none)?;
    if edges.len() < count as usize {
        return Err(Refusal::ShortBuffer.into());
    }
    let clashes = walk_lines(opened.rest, opened.size, edges)?;
    Ok(Size {
        n: opened.size.n,
        clashes,
    })
}
