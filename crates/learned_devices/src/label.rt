//! The label of a device.

ghost use Rattle.std.specs.Prelude.{◌≡◌, ◌↔◌, [], true, IsSome, IfSome, nat_eq};
ghost use Rattle.std.specs.Cmp.{on_equiv, on_per, partial_equiv_from_equiv};
ghost use Rattle.std.specs.Cmp.Lexicographic.{nat_list_eq_equiv, pointwise};
ghost use Rattle.std.specs.List.{list_all};
ghost use Rattle.learned_devices.specs.Labels.{is_label, is_label_of_any_length, is_label_byte};

use crate::limits::MAX_LABEL;
use arrayvec::ArrayString;
use std::alloc::AllocError;
use std::fmt;
use std::marker::Model;

/// The name of a device for people, or the empty text: at most `MAX_LABEL` bytes from space to `~` of ASCII, neither
/// beginning nor ending with a space. It is stored in a fixed array. Own choice.
#[derive(Drop)]
pub struct Label {
    text: ArrayString<MAX_LABEL>,
}

impl Model for Label {
    ghost use Rattle.std.specs.Prelude.{◌≡◌, ℕ, List, true};
    ghost use Rattle.learned_devices.specs.Labels.{is_label};

    ghost Value = { List ℕ };

    ghost view = { λ label. label.text.bytes };

    ghost invariant = { λ label. is_label label.text.bytes ≡ true };
}

fn is_label_byte(byte: &u8) -> bool
    ensures { result ≡ is_label_byte byte.now }
{
    (b' '..=b'~').contains(byte)
}

fn has_only_label_bytes(text: &[u8]) -> bool
    ensures { result ≡ list_all is_label_byte text.now }
{
    text.iter().all(is_label_byte)
}

/// Whether a text is a valid label, ignoring its length: bytes from space to `~` of ASCII, neither beginning nor ending
/// with a space. The empty text is one.
pub fn is_label_of_any_length(text: &[u8]) -> bool
    ensures { result ≡ is_label_of_any_length text.now }
{
    has_only_label_bytes(text) && !text.starts_with(b" ") && !text.ends_with(b" ")
}

impl Label {
    /// The label of a device without a label: the empty one.
    pub fn empty() -> Label
        ensures { result ≡ [] }
    {
        Label {
            text: ArrayString::new(),
        }
    }

    /// The label with this text, or `None` if the text is not a label.
    pub fn new(text: &str) -> Option<Label>
        ensures some { IfSome result (λ label. label ≡ text.now) }
        ensures variant { IsSome result ↔ (is_label text.now ≡ true) }
    {
        if !is_label_of_any_length(text.as_bytes()) {
            return None;
        }
        Label::of_text(text)
    }

    /// The label with this name, which `is_label_of_any_length` accepts, or `None` if it is longer than `MAX_LABEL`.
    pub fn of_text(name: &str) -> Option<Label>
        requires { is_label_of_any_length name.now ≡ true }
        ensures some { IfSome result (λ label. label ≡ name.now) }
        ensures variant { IsSome result ↔ (is_label name.now ≡ true) }
    {
        let text = ArrayString::from(name).ok()?;
        Some(Label { text })
    }

    /// The text of the label.
    pub fn as_str(&self) -> &str
        ensures text { result.now ≡ self.now }
        ensures label { is_label result.now ≡ true }
    {
        self.text.as_str()
    }

    /// The same label. Unlike `clone`, it cannot fail.
    pub fn copied(&self) -> Label
        ensures { result ≡ self.now }
    {
        Label { text: self.text }
    }
}

impl Clone for Label {
    ghost use Rattle.std.specs.Prelude.{◌≡◌};

    ghost is_clone = { λ label copy. copy ≡ label };

    ghost is_infallible = { λ _. Unit {0} };

    fn clone(&self) -> Result<Label, AllocError> {
        Ok(self.copied())
    }
}

impl PartialEq for Label {
    ghost eq = { λ a b. pointwise nat_eq a b };

    ghost laws = { on_per (λ label. label) (partial_equiv_from_equiv nat_list_eq_equiv) };

    fn eq(&self, other: &Label) -> bool {
        self.as_str() == other.as_str()
    }
}

impl Eq for Label {
    ghost laws = { on_equiv (λ label. label) nat_list_eq_equiv };
}

impl fmt::Debug for Label {
    fn fmt<W: fmt::Write>(&self, f: &mut fmt::Formatter<W>) -> fmt::Result {
        fmt::Debug::fmt(&self.as_str(), f)
    }
}
