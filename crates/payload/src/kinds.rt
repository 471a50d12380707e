ghost use Rattle.std.specs.Prelude.{◌≡◌, Bool, true};

/// A kind of payload: values that are alike or not. The ghost member `same` says
/// when, and each kind shows that it is an equivalence.
pub trait Payload: Copy {
    ghost same: { Self → Self → Bool };

    /// Whether the two payloads are alike.
    // Not `==`: it is the kind's own question, and values that differ may be alike.
    fn alike(&self, other: &Self) -> bool
        ensures { result ≡ same self.now other.now };

    ghost reflexive: { (x : Self) → same x x ≡ true };

    ghost symmetric: { (x y : Self) → same x y ≡ true → same y x ≡ true };

    ghost transitive: { (x y z : Self) → same x y ≡ true → same y z ≡ true → same x z ≡ true };
}
