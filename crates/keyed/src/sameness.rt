// When two keys are the same.
ghost use Rattle.std.specs.Prelude.{◌≡◌, Bool};
ghost use Rattle.keyed.specs.Sameness.{Laws, equal_keys};

// Sameness of keys of the kind K. An implementor holds what the keys are read against.
pub trait Sameness<K> {
    ghost alike: { Self → K → K → Bool };

    fn same(&self, a: K, b: K) -> bool
        ensures { result ≡ alike self.now a b };

    // Sameness is reflexive, symmetric and transitive.
    ghost laws: { (s : Self) → Laws (alike s) };
}

// Equal keys are the same.
#[derive(Clone, Copy, Debug, Default, PartialEq, Eq)]
pub struct Equality;

// The name that callers know it by, for numbers of spans.
pub use Equality as SpanNumbers;

impl<K: Copy + Eq> Sameness<K> for Equality {
    ghost alike = { λ _. K.eq };

    fn same(&self, a: K, b: K) -> bool {
        a == b
    }

    ghost laws = { λ _. equal_keys K.Eq.laws };
}
