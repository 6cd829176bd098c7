//! Theorems about the definitions. Each function does nothing: its contract is the theorem.
ghost use Rattle.std.specs.Prelude.{◌≡◌, ℕ, ◌+◌, ◌*◌, ◌^◌, ◌<◌, ◌≤◌, ◌⊎◌, List, length};
ghost use Rattle.std.specs.List.{All};
ghost use Rattle.bit_fields.specs.Bits.{field, WithField};

/// A field that was set is read as its new value.
pub fn set_field_is_read()
    ensures { (bytes changed : List ℕ) (offset len value : ℕ) → WithField bytes offset len value changed
        → field changed offset len ≡ value }
{}

/// A field without a bit in common with the one that was set is read as before.
pub fn disjoint_field_stays()
    ensures { (bytes changed : List ℕ) (offset len value : ℕ) → WithField bytes offset len value changed
        → (other_offset other_len : ℕ) → (other_offset + other_len ≤ offset) ⊎ (offset + len ≤ other_offset)
        → field changed other_offset other_len ≡ field bytes other_offset other_len }
{}

/// There is at most one result of setting a field within the bytes: `WithField` determines every bit.
pub fn set_field_is_unique()
    ensures { (bytes a b : List ℕ) (offset len value : ℕ) → All (λ byte. byte < 2 ^ 8) a → All (λ byte. byte < 2 ^ 8) b
        → offset + len ≤ 8 * length bytes → WithField bytes offset len value a → WithField bytes offset len value b
        → a ≡ b }
{}
