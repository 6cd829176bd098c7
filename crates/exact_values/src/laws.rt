//! Theorems about the definitions. Each function does nothing: its contract is the theorem.
ghost use Rattle.std.specs.Prelude.{◌≡◌, pos, ◌*ℤ◌};
ghost use Rattle.exact_values.specs.Ratio.{Ratio, IsLowest};

/// A value has exactly one fraction in lowest terms. A contract that states the value of a fraction, and that it is in
/// lowest terms, therefore determines the fraction.
pub fn lowest_terms_are_unique()
    ensures { (a b : Ratio) → IsLowest a → IsLowest b → a.num *ℤ pos b.den ≡ b.num *ℤ pos a.den → a ≡ b }
{}
