//! The gateway's own IDs, and the telegrams that it filters out.
ghost use Rattle.std.specs.Prelude.{◌≡◌, true, false, MatchOption};
ghost use Rattle.erp1_telegrams.specs.Address;
ghost use Rattle.erp1_telegrams.specs.Address.{filter_reason, is_filtered_out};

use crate::telegram::{BROADCAST, Telegram};

/// Whether an ID is a base ID: the first of the 128 IDs with which a radio module sends. It is from `FF800000` to
/// `FFFFFF80`, and its low seven bits are 0.
///
/// EnOcean Serial Protocol 3, "CO_WR_IDBASE".
pub fn is_base_id(id: u32) -> bool
    ensures { result ≡ Address.is_base_id id }
{
    id >= 0xFF80_0000 && id <= 0xFFFF_FF80 && id % 128 == 0
}

/// Whether an ID is one of the 128, from `base` on, with which a gateway with this base ID sends.
///
/// EnOcean Serial Protocol 3, "CO_WR_IDBASE".
pub fn is_gateway_id(base: u32, id: u32) -> bool
    ensures { result ≡ Address.is_gateway_id base id }
{
    base <= id && id - base <= 127
}

/// Why a telegram is filtered out. Own choice.
#[derive(Clone, Copy, Debug, PartialEq, Eq)]
pub enum FilterReason {
    /// Its sender is the broadcast ID.
    FromBroadcast,
    /// It is neither a broadcast nor addressed to this gateway.
    ForOthers,
}

/// Why a gateway with this base ID filters out a telegram, or `None` if it does not: the sender is the broadcast ID, or
/// the destination is neither the broadcast ID nor one of the 128 IDs from `base` on. Own choice.
pub fn filter_reason(base: u32, telegram: &Telegram) -> Option<FilterReason>
    ensures { MatchOption result (is_filtered_out base telegram.now ≡ false)
        (λ reason. (is_filtered_out base telegram.now ≡ true) × (reason ≡ filter_reason telegram.now)) }
{
    if telegram.sender() == BROADCAST {
        return Some(FilterReason::FromBroadcast);
    }
    let dest = telegram.dest();
    if dest == BROADCAST || is_gateway_id(base, dest) {
        None
    } else {
        Some(FilterReason::ForOthers)
    }
}
