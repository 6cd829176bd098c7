//! The plan for the sender of a telegram, by the table of plans.
ghost use Rattle.std.specs.Prelude.{◌≡◌, ◌==◌, ◌&&◌, Bool};
ghost use Rattle.teach_in.specs.Telegrams.{teach_in_of};
ghost use Rattle.teach_in.specs.Plans.{add, add_if_supported, ute_plan, can_be_learned_by, plan_of, plan_row_of};

use crate::mode::Mode;
use crate::outcome::Outcome;
use crate::plans::Plan;
use crate::profiles::supported;
use crate::telegrams::{Teach, classify};
use crate::ute::{DELETION_REQUEST, UNUSED_REQUEST, UteQuery};
use bit_fields::get;
use erp1_telegrams::{Contents, Eep, Telegram, rorg};
use learned_devices::{Device, Label};

// The profile of a contact, which its teach-in telegram does not contain (EnOcean Equipment Profiles 2.6, "1BS
// Telegram").
const CONTACT_EEP: Eep = Eep {
    rorg: rorg::ONE_BS,
    func: 0x00,
    typ: 0x01,
};

// The sender of a telegram is learned with this profile and this maker.
fn add(telegram: &Telegram, eep: Eep, maker: Option<u16>) -> Plan
    ensures { result ≡ add telegram.now eep maker }
{
    Plan::Add(Device {
        id: telegram.sender(),
        eep,
        maker,
        label: Label::empty(),
    })
}

// The same with the profile and maker of a query, if that profile is supported.
fn add_if_supported(telegram: &Telegram, eep: Eep, maker: u16) -> Plan
    ensures { result ≡ add_if_supported telegram.now eep maker }
{
    if supported(eep) {
        add(telegram, eep, Some(maker))
    } else {
        Plan::Refuse(Outcome::Unsupported)
    }
}

// The plan for a UTE query.
fn ute_plan(telegram: &Telegram, query: &UteQuery) -> Plan
    ensures { result ≡ ute_plan telegram.now query.now }
{
    match query.request() {
        DELETION_REQUEST => Plan::Forget(telegram.sender()),
        UNUSED_REQUEST => Plan::Refuse(Outcome::General),
        _ => add_if_supported(telegram, query.eep(), query.maker()),
    }
}

// The plan in the modes that learn by a telegram's own profile.
fn plan_by_query(telegram: &Telegram, teach: &Teach) -> Plan
    ensures { (known : Bool) → result ≡ (plan_row_of telegram.now known teach.now).by_own_profile }
{
    match teach {
        Teach::Contact => add(telegram, CONTACT_EEP, None),
        Teach::Bare => Plan::Refuse(Outcome::NoProfile),
        Teach::FourByte(query) => add_if_supported(telegram, query.eep(), query.maker()),
        Teach::Ute(query) => ute_plan(telegram, query),
        Teach::Plain | Teach::Answer => Plan::Silent,
    }
}

// Whether a sender can be learned with a profile of this RORG by this data telegram.
fn can_be_learned_by(telegram: &Telegram, rorg: u8) -> bool
    ensures { result ≡ (can_be_learned_by telegram.now && rorg == telegram.now.rorg) }
{
    match (telegram.contents(), rorg) {
        (Contents::Rps(bytes), rorg::RPS) => get::<1, 3, 1>(bytes) == 1,
        (Contents::Vld(_), rorg::VLD) => true,
        _ => false,
    }
}

// The plan in the mode that learns with this profile.
fn plan_by_desk(telegram: &Telegram, teach: &Teach, eep: Eep, known: bool) -> Plan
    ensures { result ≡ (plan_row_of telegram.now known teach.now).by_desk_profile eep }
{
    match (teach, eep.rorg) {
        (Teach::Contact, rorg::ONE_BS) | (Teach::Bare, rorg::FOUR_BS) => add(telegram, eep, None),
        (Teach::FourByte(query), rorg::FOUR_BS) => add(telegram, eep, Some(query.maker())),
        (Teach::Plain, rorg) if !known && can_be_learned_by(telegram, rorg) => add(
            telegram, eep, None,
        ),
        _ => Plan::Silent,
    }
}

/// The plan for the sender of a telegram, by the telegram's role in teach-in, by the mode, and by whether the sender is
/// already learned.
pub fn plan_for(telegram: &Telegram, teach: &Teach, mode: Mode, known: bool) -> Plan
    requires { teach.now ≡ teach_in_of telegram.now }
    ensures { result ≡ plan_of telegram.now mode known }
{
    match mode {
        Mode::Closed => Plan::Silent,
        Mode::Learn | Mode::LearnAnswer => plan_by_query(telegram, teach),
        Mode::LearnAs(eep) => plan_by_desk(telegram, teach, eep, known),
    }
}

/// The same for a telegram that is not classified yet.
pub fn plan(telegram: &Telegram, mode: Mode, known: bool) -> Plan
    ensures { result ≡ plan_of telegram.now mode known }
{
    plan_for(telegram, &classify(telegram), mode, known)
}
