//! The outcome for a sender.

/// The outcome for a sender that was to be learned or forgotten. Own choice, after the replies of EnOcean Equipment
/// Profiles 2.6, "Universal Uni- and Bidirectional Teach-in".
#[derive(Clone, Copy, Debug, PartialEq, Eq)]
pub enum Outcome {
    /// The sender is learned.
    Accepted,
    /// The sender is forgotten.
    Deleted,
    /// Its profile is not supported.
    Unsupported,
    /// The registry is full: the maximum number of other devices is learned.
    Full,
    /// Its request is not in use.
    General,
    /// It has no profile.
    NoProfile,
}
