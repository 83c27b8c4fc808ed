ghost use Rattle.std.specs.Prelude.{◌≡◌, ℕ, ◌^◌, ◌<◌, ◌≤◌, Bool};
ghost use Rattle.finite.specs.Finite.{count};
ghost use Rattle.pictures.specs.Pictures.{Clique};
ghost use Rattle.pictures.specs.declared.shape.Picture.{Picture as Drawing};

use pictures::Picture;

// A bound on the size of the cliques inside a mask. Places beyond the picture's count are passed over.
pub trait Bound {
    ghost answer: { Self → Drawing → ℕ → ℕ };

    fn bound(&self, p: &Picture, mask: u64) -> u32
        ensures { result ≡ answer self.now p.now mask };

    ghost sound: { (s : Self) (p : Drawing) (m : ℕ) (K : ℕ → Bool) → m < 2 ^ 64 → Clique p m K → count K 64 ≤ answer s p m };
}
