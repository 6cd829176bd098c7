//! The disposition of a packet.
ghost use Rattle.std.specs.Prelude.{◌≡◌};
ghost use Rattle.gateway_core.specs.Dispositions;
ghost use Rattle.gateway_core.specs.Dispositions.{without_device, eep_in_query, maker_in_query};

use erp1_telegrams::Eep;
use gateway_state::{Counter, HandlingReason};
use learned_devices::Device;
use profile_rows::Unreadable;
use teach_in::{Mode, Teach};

// Why a packet was handled the way it was. If the packet is data of a learned device, or a device was learned from it,
// also the profile and maker of this device.
#[derive(Clone, Copy, Debug, PartialEq, Eq)]
pub(crate) struct Disposition {
    pub(crate) why: HandlingReason,
    pub(crate) eep: Option<Eep>,
    pub(crate) maker: Option<u16>,
}

impl Disposition {
    // Without a profile and a maker.
    pub(crate) fn without_device(why: HandlingReason) -> Disposition
        ensures { result ≡ without_device why }
    {
        Disposition {
            why,
            eep: None,
            maker: None,
        }
    }

    // With the profile and maker of this device.
    pub(crate) fn for_device(device: &Device, why: HandlingReason) -> Disposition
        ensures { result ≡ Dispositions.for_device device.now why }
    {
        Disposition {
            why,
            eep: Some(device.eep),
            maker: device.maker,
        }
    }

    // The counter that the packet increments.
    pub(crate) fn count(&self) -> Counter
        ensures { result ≡ Dispositions.counter_for self.now.why }
    {
        match self.why {
            HandlingReason::Failed => Counter::Failed,
            HandlingReason::Response => Counter::Response,
            HandlingReason::TeachIn(_) => Counter::TeachLine,
            HandlingReason::Read => Counter::Reading,
            HandlingReason::EmptyResponse
            | HandlingReason::OtherType
            | HandlingReason::NoTelegram
            | HandlingReason::FilteredOut(_)
            | HandlingReason::TeachInReply
            | HandlingReason::WindowClosed
            | HandlingReason::OtherMode
            | HandlingReason::UnknownSender
            | HandlingReason::WrongKind
            | HandlingReason::WrongLength
            | HandlingReason::OtherMessage => Counter::Ignored,
        }
    }
}

// Why nothing is done about the sender of a telegram: of data, if `is_data`, and then the sender is not learned;
// otherwise of a teach-in telegram.
pub(crate) fn why_nothing_done(is_data: bool, mode: Mode) -> HandlingReason
    ensures { result ≡ Dispositions.why_nothing_done is_data mode }
{
    match (is_data, mode) {
        (true, _) => HandlingReason::UnknownSender,
        (false, Mode::Closed) => HandlingReason::WindowClosed,
        (false, Mode::Learn | Mode::LearnAnswer | Mode::LearnAs(_)) => HandlingReason::OtherMode,
    }
}

// Why a data telegram cannot be read.
pub(crate) fn why_unread(fault: Unreadable) -> HandlingReason
    ensures { result ≡ Dispositions.why_unread fault }
{
    match fault {
        Unreadable::WrongKind => HandlingReason::WrongKind,
        Unreadable::WrongLength => HandlingReason::WrongLength,
        Unreadable::NotSupported | Unreadable::OtherMessage => HandlingReason::OtherMessage,
    }
}

// The profile and maker in a teach-in telegram, if it has them.
pub(crate) fn eep_and_maker_in_query(teach: &Teach) -> (Option<Eep>, Option<u16>)
    ensures eep { result.0 ≡ eep_in_query teach.now }
    ensures maker { result.1 ≡ maker_in_query teach.now }
{
    match teach {
        Teach::FourByte(query) => (Some(query.eep()), Some(query.maker())),
        Teach::Ute(query) => (Some(query.eep()), Some(query.maker())),
        _ => (None, None),
    }
}
