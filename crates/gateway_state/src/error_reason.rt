//! The reason in an error line. Its line is in `error_lines.rt` of `json_lines`.
use desk_orders::OrderFault;
use learned_devices::StoreFault;

/// Why the gateway did not do what it was asked.
#[derive(Clone, Copy, Debug, PartialEq, Eq)]
pub enum ErrorReason {
    /// The line is no order, or a number of the order is out of range, or its device is not learned or has no such
    /// order.
    Order(OrderFault),
    /// The line is longer than an order may be.
    TooLong,
    /// The registry is full: the maximum number of other devices is learned.
    Full,
    /// The gateway cannot read telegrams of this profile.
    UnsupportedProfile,
    /// Out of memory, or the device store failed. After a crash, the requested update may turn out to be done.
    Failed(StoreFault),
}
