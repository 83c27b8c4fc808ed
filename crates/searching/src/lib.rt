// The theory of the search for a largest clique of a picture.
#![tactic(auto)]

ghost use Rattle.std.specs.Prelude.{ℕ};
ghost use Rattle.finite.specs.Finite.{count};
ghost use Rattle.finite.specs.Masks.{bit};
ghost use Rattle.pictures.specs.declared.shape.Picture.{Picture as Drawing};
ghost use Rattle.searching.specs.Answers.{AtMost};

// A clique inside a mask has no more members than the mask.
pub fn searching_stands()
    ensures { (p : Drawing) (m : ℕ) → AtMost p m (count (bit m) 64) }
{}
