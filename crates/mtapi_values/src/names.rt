//! Values that have names.

ghost use Rattle.std.specs.Prelude.{◌≡◌, ℕ, List, find};
ghost use Rattle.std.specs.Str.{bytes_eq};

/// A type of few values, each with a name of its own.
pub trait Named: Copy {
    ghost named: { Self → List ℕ };

    /// The value's name.
    fn name_of(&self) -> &'static str
        ensures { result.now ≡ named self.now };
}

/// The first of these values that has this name.
pub fn value_named<T: Named>(values: &[T], text: &str) -> Option<T>
    ensures { result ≡ find (λ x. bytes_eq (T.named x) text.now) values.now }
{
    values.iter().copied().find(|value| value.name_of() == text)
}
