//! The reason why a packet was handled the way it was. Its word is in `reason_words.rt` of `json_lines`, and the
//! counter that it increments in `disposition.rt` of `gateway_core`.
use erp1_telegrams::FilterReason;
use teach_in::Outcome;

/// Why a packet was handled the way it was.
#[derive(Clone, Copy, Debug, PartialEq, Eq)]
pub enum HandlingReason {
    /// It failed: out of memory, or an error of the device store.
    Failed,
    /// The packet is a response.
    Response,
    /// The packet is a response without a return code.
    EmptyResponse,
    /// The packet has a type that the gateway does not use.
    OtherType,
    /// The packet contains no telegram that can be read.
    NoTelegram,
    /// The telegram is filtered out, for this reason.
    FilteredOut(FilterReason),
    /// The telegram is a teach-in reply.
    TeachInReply,
    /// The telegram's sender was to be learned or forgotten, with this outcome.
    TeachIn(Outcome),
    /// It is a teach-in telegram, and the mode is closed.
    WindowClosed,
    /// It is a teach-in telegram that the open mode does not accept.
    OtherMode,
    /// The telegram was read.
    Read,
    /// The telegram's sender is not learned.
    UnknownSender,
    /// The telegram's kind is not that of its sender's profile.
    WrongKind,
    /// The telegram's payload does not have the length of its sender's profile.
    WrongLength,
    /// The telegram is a message that its sender's profile cannot read.
    OtherMessage,
}
