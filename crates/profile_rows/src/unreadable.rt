//! The errors that all crates of profiles share.

use thiserror::Error;

/// Why a telegram cannot be decoded by a profile.
#[derive(Clone, Copy, Debug, PartialEq, Eq, Error)]
pub enum Unreadable {
    /// The profile is not supported.
    #[error("the profile is not supported")]
    NotSupported,
    /// The telegram does not have the RORG of the profile.
    #[error("the telegram is of another kind than the profile")]
    WrongKind,
    /// The payload does not have the length of the profile's messages.
    #[error("the payload has another length than the profile's messages")]
    WrongLength,
    /// The message is not one of those that are decoded, for example a teach-in.
    #[error("the message is of another sort than those that are read")]
    OtherMessage,
}
