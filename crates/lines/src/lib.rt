#![tactic(auto)]

ghost use Rattle.std.specs.Prelude.{◌≡◌, ℕ, ◌<◌, ◌≤◌, true, false, Some, None, MatchResult, ◌==◌};
ghost use Rattle.std.specs.Option.{option_map};
ghost use Rattle.fields.specs.Numerals.{numeral};
ghost use Rattle.graph.specs.declared.refusal.Refusal.TheVariants.{NoMemory};
ghost use Rattle.grammar.specs.Lines.{kind_of};
ghost use Rattle.lines.specs.Rest.{Next, fields_of, count_of};
ghost use Rattle.lines.specs.Kept.{Unplaced, IsAt, IsFault, Figured, TwoKept, TwoFault, Kept, LineFault, line_of, field_of, shown_of};

use fields::{Piece, cut, number};
use grammar::Kind;
use graph::refusal::Refusal;
use std::alloc::AllocError;

// A field that is a numeral: its bytes, and its number.
#[derive(Clone, Copy)]
pub struct Figure<'a> {
    pub shown: &'a [u8],
    pub value: u32,
}

// Two numbers behind a letter.
#[derive(Clone, Copy)]
struct Two<'a> {
    a: Figure<'a>,
    b: Figure<'a>,
}

// A line of a sheet, with the bytes of its fields as they stand there.
#[derive(Clone, Copy)]
pub enum Line<'a> {
    Size { n: Figure<'a>, m: Figure<'a> },
    Clash { a: Figure<'a>, b: Figure<'a> },
    Remark(&'a [u8]),
    End,
}

// A field of a sheet: line and field count from 1, and `shown` is the field's bytes.
#[derive(Clone, Copy)]
pub struct Place<'a> {
    pub line: usize,
    pub field: usize,
    pub shown: &'a [u8],
}

// Why a sheet is refused, and where, if a line of it is at fault.
#[derive(Clone, Copy)]
pub struct Fault<'a> {
    pub refusal: Refusal,
    pub place: Option<Place<'a>>,
}

impl<'a> Fault<'a> {
    // The fault of a field.
    pub fn at(refusal: Refusal, line: usize, field: usize, shown: &'a [u8]) -> Self
        ensures refusal { result.refusal ≡ refusal }
        ensures place { IsAt line field shown.now result.place }
    {
        Fault {
            refusal,
            place: Some(Place { line, field, shown }),
        }
    }

    // The line at fault, 0 where there is none.
    pub fn line(&self) -> usize
        ensures { result ≡ line_of self.now.place }
    {
        match self.place {
            Some(place) => place.line,
            None => 0,
        }
    }

    // The field at fault, 0 where there is none.
    pub fn field(&self) -> usize
        ensures { result ≡ field_of self.now.place }
    {
        match self.place {
            Some(place) => place.field,
            None => 0,
        }
    }

    // The bytes of the field at fault, none where there is no field.
    pub fn shown(&self) -> &'a [u8]
        ensures { result.now ≡ shown_of self.now.place }
    {
        match self.place {
            Some(place) => place.shown,
            None => &[],
        }
    }
}

// The fault of no line.
impl<'a> From<Refusal> for Fault<'a> {
    ghost from_gives = { λ x f. Unplaced x f };

    fn from(refusal: Refusal) -> Self {
        Fault {
            refusal,
            place: None,
        }
    }
}

// The fault of no line that memory is wanting.
impl<'a> From<AllocError> for Fault<'a> {
    ghost from_gives = { λ _ f. Unplaced NoMemory f };

    fn from(_error: AllocError) -> Self {
        Refusal::NoMemory.into()
    }
}

// The first field of what is left of a line, empty where nothing is left.
fn next<'a>(rest: Option<&'a [u8]>) -> Piece<'a>
    ensures { Next (option_map (λ x. x.now) rest.entry) result.front.now (option_map (λ x. x.now) result.rest) }
{
    match rest {
        Some(text) => cut(text, b'\t'),
        None => Piece {
            front: &[],
            rest: None,
        },
    }
}

// By hand: number and line of a field are passed one by one, since a struct for them would be longer at each call.
fn read_figure<'a>(shown: &'a [u8], field: usize, at: usize) -> Result<Figure<'a>, Fault<'a>>
    ensures { MatchResult result (λ x. Figured shown.now x) (λ f. (numeral shown.now ≡ None) × IsFault 9 at field shown.now f) }
{
    match number(shown) {
        Some(value) => Ok(Figure { shown, value }),
        None => Err(Fault::at(Refusal::BadLine, at, field, shown)),
    }
}

// Nothing is left of the line.
fn none_left<'a>(rest: Option<&'a [u8]>, field: usize, at: usize) -> Result<(), Fault<'a>>
    ensures { MatchResult result (λ _. count_of (option_map (λ x. x.now) rest.entry) ≡ 0) (λ f. (0 < count_of (option_map (λ x. x.now) rest.entry)) × IsFault 9 at field (fields_of (option_map (λ x. x.now) rest.entry) 0) f) }
{
    match rest {
        Some(text) => {
            let shown = cut(text, b'\t').front;
            Err(Fault::at(Refusal::BadLine, at, field, shown))
        }
        None => Ok(()),
    }
}

// Two numbers, and nothing behind them.
fn read_two<'a>(rest: Option<&'a [u8]>, at: usize) -> Result<Two<'a>, Fault<'a>>
    ensures { MatchResult result (λ t. TwoKept (option_map (λ x. x.now) rest.entry) t) (λ f. TwoFault (option_map (λ x. x.now) rest.entry) at f) }
{
    let second = next(rest);
    let a = read_figure(second.front, 2, at)?;
    let third = next(second.rest);
    let b = read_figure(third.front, 3, at)?;
    none_left(third.rest, 4, at)?;
    Ok(Two { a, b })
}

fn kind(field: &[u8]) -> Kind
    ensures { result ≡ kind_of field.now }
{
    let [letter] = field else {
        return Kind::Other;
    };
    match *letter as char {
        's' => Kind::Size,
        'p' => Kind::Clash,
        'r' => Kind::Remark,
        'e' => Kind::End,
        _ => Kind::Other,
    }
}

// A field that may not stand where it stands.
pub fn misplaced<'a>(shown: &'a [u8], at: usize) -> Fault<'a>
    ensures { IsFault 9 at 1 shown.now result }
{
    Fault::at(Refusal::BadLine, at, 1, shown)
}

// The first line: the size.
fn first_line<'a>(text: &'a [u8], at: usize) -> Result<Line<'a>, Fault<'a>>
    ensures { MatchResult result (λ l. Kept true text.now l) (λ f. LineFault true text.now at f) }
{
    let head = next(Some(text));
    match kind(head.front) {
        Kind::Size => {
            let both = read_two(head.rest, at)?;
            Ok(Line::Size {
                n: both.a,
                m: both.b,
            })
        }
        _ => Err(misplaced(head.front, at)),
    }
}

// A later line: a clash, a remark or the end.
fn later_line<'a>(text: &'a [u8], at: usize) -> Result<Line<'a>, Fault<'a>>
    ensures { MatchResult result (λ l. Kept false text.now l) (λ f. LineFault false text.now at f) }
{
    let head = next(Some(text));
    match kind(head.front) {
        Kind::Clash => {
            let both = read_two(head.rest, at)?;
            Ok(Line::Clash {
                a: both.a,
                b: both.b,
            })
        }
        Kind::Remark => Ok(Line::Remark(text)),
        Kind::End => {
            none_left(head.rest, 2, at)?;
            Ok(Line::End)
        }
        Kind::Size | Kind::Other => Err(misplaced(head.front, at)),
    }
}

// What the line says, without its line feed, or the first field of it that is wrong, missing or surplus.
pub fn read_line<'a>(text: &'a [u8], at: usize) -> Result<Line<'a>, Fault<'a>>
    ensures { MatchResult result (λ l. Kept (at == 1) text.now l) (λ f. LineFault (at == 1) text.now at f) }
{
    if at == 1 {
        first_line(text, at)
    } else {
        later_line(text, at)
    }
}

// The first field of a line.
pub fn letter<'a>(text: &'a [u8]) -> &'a [u8]
    ensures { result.now ≡ fields_of (Some text.now) 0 }
{
    next(Some(text)).front
}
