//! The meaning of lines and sheets.
#![tactic(auto)]

ghost use Rattle.grammar.specs.Theorems.{ReadAsStated, StatedAsRead, OneStock, HasSheet};

// What a line of a sheet is, by its letter.
#[derive(Clone, Copy, PartialEq, Eq, Debug)]
pub enum Kind {
    Size,
    Clash,
    Remark,
    End,
    Other,
}

/// Reading finds exactly what a well-formed sheet states; every stock has such a sheet, and no sheet states two.
pub fn sheets_stand()
    ensures read { ReadAsStated }
    ensures stated { StatedAsRead }
    ensures one { OneStock }
    ensures some { HasSheet }
{}
