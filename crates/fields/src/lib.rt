#![tactic(auto)]

ghost use Rattle.std.specs.Prelude.{◌≡◌, ℕ, ◌<◌, ◌≤◌, true, false, ◌++◌, length, decimal, MatchOption, OnOk};
ghost use Rattle.std.specs.Option.{option_map};
ghost use Rattle.std.specs.Str.{all_ascii_digits};
ghost use Rattle.fields.specs.Numerals.{Numeral, numeral, read_on};
ghost use Rattle.fields.specs.Parts.{Cut};
ghost use Rattle.fields.specs.Rows.{line_of, numbers_line};

use itoa::Buffer;
use std::alloc::AllocError;

// The most digits that a number may have.
const DIGITS: usize = 5;

// The number that the digits write, if they are digits.
fn digits(field: &[u8]) -> Option<u32>
    requires { length field.now ≤ 5 }
    ensures { MatchOption result (all_ascii_digits field.now ≡ false) (λ v. (all_ascii_digits field.now ≡ true) × (v ≡ read_on 0 field.now)) }
{
    let mut v = 0u32;
    for c in field {
        if !c.is_ascii_digit() {
            return None;
        }
        v = 10 * v + u32::from(*c - b'0');
    }
    Some(v)
}

// The number whose numeral the field is.
// By hand: `parse` takes a sign and leading zeros, and asks for text where the field is bytes.
pub fn number(field: &[u8]) -> Option<u32>
    ensures value { result ≡ numeral field.now }
    ensures cases { MatchOption result ((v : ℕ) → Numeral field.now v → ⊥) (λ v. Numeral field.now v) }
{
    if field.is_empty() || field.len() > DIGITS {
        return None;
    }
    if field[0] == b'0' && field.len() > 1 {
        return None;
    }
    digits(field)
}

// Writes the decimal digits of v behind what stands in `out`.
pub fn write_number(out: &mut Vec<u8>, v: u64) -> Result<(), AllocError>
    ensures { OnOk result (out.new.items ≡ out.old.items ++ decimal v) }
{
    let mut digits = Buffer::new();
    out.extend_from_slice(digits.format(v).as_bytes())?;
    Ok(())
}

/// An unsigned number of any width.
pub trait Unsigned: Copy {
    ghost value: { Self → ℕ };

    /// The number, as wide as any.
    fn widened(self) -> u64
        ensures { result ≡ value self };
}

impl Unsigned for u16 {
    ghost value = { λ x. x };

    fn widened(self) -> u64 {
        u64::from(self)
    }
}

impl Unsigned for u64 {
    ghost value = { λ x. x };

    fn widened(self) -> u64 {
        self
    }
}

impl Unsigned for usize {
    ghost value = { λ x. x };

    fn widened(self) -> u64 {
        self as u64
    }
}

// Writes a line: a letter, a tab before each number, and a line feed.
pub fn write_numbers<T: Unsigned>(
    out: &mut Vec<u8>,
    letter: u8,
    numbers: &[T],
) -> Result<(), AllocError>
    ensures { OnOk result (out.new.items ≡ out.old.items ++ line_of T.value letter numbers.now) }
{
    out.push(letter)?;
    for x in numbers {
        out.push(b'\t')?;
        write_number(out, x.widened())?;
    }
    out.push(b'\n')?;
    Ok(())
}

// The same for numbers of 64 bits.
pub fn write_fields(out: &mut Vec<u8>, letter: u8, numbers: &[u64]) -> Result<(), AllocError>
    ensures { OnOk result (out.new.items ≡ out.old.items ++ numbers_line letter numbers.now) }
{
    write_numbers(out, letter, numbers)
}

// What stands before the first separator, and what stands behind it if there is one.
#[derive(Clone, Copy)]
pub struct Piece<'a> {
    pub front: &'a [u8],
    pub rest: Option<&'a [u8]>,
}

pub fn cut<'a>(text: &'a [u8], at: u8) -> Piece<'a>
    ensures { Cut at text.now result.front.now (option_map (λ x. x.now) result.rest) }
{
    match text.iter().position(|c| *c == at) {
        Some(i) => Piece {
            front: &text[..i],
            rest: Some(&text[i + 1..]),
        },
        None => Piece {
            front: text,
            rest: None,
        },
    }
}
