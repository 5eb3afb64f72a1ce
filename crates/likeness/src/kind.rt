//! What makes a type a kind of key.

ghost use Rattle.std.specs.Prelude.{◌≡◌, Bool, true};

/// A kind of key. Keys that are alike count as one; which are alike is each kind's own choice, under three laws.
pub trait Likeness: Copy {
    ghost alike: { Self → Self → Bool };

    /// Whether the two keys count as one.
    fn is_alike(&self, other: &Self) -> bool
        ensures { result ≡ alike self.now other.now };

    ghost reflexive: { (x : Self) → alike x x ≡ true };

    ghost symmetric: { (x y : Self) → alike x y ≡ true → alike y x ≡ true };

    ghost transitive: { (x y z : Self) → alike x y ≡ true → alike y z ≡ true → alike x z ≡ true };
}
