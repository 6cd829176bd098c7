//! Teach-in: the roles of telegrams, the fields of queries, the plans for a sender, and the replies. The golden
//! sessions `verdicts` and `verdicts-full` have every kind of telegram in every mode, and each bit of the fields.
use erp1_telegrams::{BROADCAST, Eep, Telegram};
use std::test::Fail;
use teach_in::{
    FourByteQuery, Mode, Outcome, Plan, Teach, UteQuery, Verdict, classify, four_byte_reply, plan,
    supported, ute_reply,
};

const SENDER: u32 = 0x0180_0ABC;

const LAST_BASE: u32 = 0xFFFF_FF80;

const CONTACT_PROFILE: Eep = Eep {
    rorg: 0xD5,
    func: 0x00,
    typ: 0x01,
};

const ROCKER_PROFILE: Eep = Eep {
    rorg: 0xF6,
    func: 0x02,
    typ: 0x01,
};

const THERMOMETER_PROFILE: Eep = Eep {
    rorg: 0xA5,
    func: 0x02,
    typ: 0x05,
};

const LAMP_PROFILE: Eep = Eep {
    rorg: 0xD2,
    func: 0x01,
    typ: 0x12,
};

// A profile of the RORG of UTE, which cannot be learned.
const UTE_PROFILE: Eep = Eep {
    rorg: 0xD4,
    func: 0x01,
    typ: 0x12,
};

// A 4BS query of A5-02-05, maker 70.
const THERMOMETER_4BS_QUERY: [u8; 4] = [0x08, 0x28, 0x46, 0x80];

// UTE queries of D2-01-12, maker 70: teach-in and deletion.
const LAMP_UTE_QUERY: [u8; 7] = [0xA0, 0x01, 0x46, 0x00, 0x12, 0x01, 0xD2];

const LAMP_UTE_DELETION_QUERY: [u8; 7] = [0x90, 0x01, 0x46, 0x00, 0x12, 0x01, 0xD2];

fn telegram(rorg: u8, payload: &[u8]) -> Result<Telegram, Fail> {
    Ok(Telegram::new(rorg, payload, SENDER, 0, BROADCAST, None)?)
}

const TEACH_IN_ROLES: [(u8, &[u8], Teach); 7] = [
    (0xD5, &[0x00], Teach::Contact),
    (0xD5, &[0x08], Teach::Plain),
    (0xA5, &[0x00, 0x00, 0x00, 0x00], Teach::Bare),
    (0xA5, &[0x08, 0x28, 0x46, 0xF0], Teach::Answer),
    (0xF6, &[0x50], Teach::Plain),
    (0xD2, &[0x04, 0x60, 0xE4], Teach::Plain),
    (
        0xD4,
        &[0x91, 0x01, 0x46, 0x00, 0x12, 0x01, 0xD2],
        Teach::Answer,
    ),
];

#[test]
fn telegrams_have_teach_in_roles(rt: HostRuntime) -> Result<(), Fail> {
    for (case_number, (rorg, payload, expected_role)) in TEACH_IN_ROLES.iter().enumerate() {
        let role = classify(&telegram(*rorg, payload)?);
        assert_eq!(rt; role, *expected_role, "row {case_number}");
    }
    Ok(())
}

fn four_byte_query(payload: &[u8]) -> Result<FourByteQuery, Fail> {
    match classify(&telegram(0xA5, payload)?) {
        Teach::FourByte(query) => Ok(query),
        _ => Err(Fail::from("no query")),
    }
}

fn ute_query(payload: &[u8]) -> Result<UteQuery, Fail> {
    match classify(&telegram(0xD4, payload)?) {
        Teach::Ute(query) => Ok(query),
        _ => Err(Fail::from("no query")),
    }
}

#[test]
fn four_byte_query_is_read(rt: HostRuntime) -> Result<(), Fail> {
    let query = four_byte_query(&THERMOMETER_4BS_QUERY)?;
    let query_fields = (query.id(), query.eep(), query.maker());
    assert_eq!(rt; query_fields, (SENDER, THERMOMETER_PROFILE, 70));
    Ok(())
}

#[test]
fn ute_query_is_read(rt: HostRuntime) -> Result<(), Fail> {
    let query = ute_query(&LAMP_UTE_QUERY)?;
    let query_fields = (query.id(), query.eep(), query.maker(), query.wants_reply());
    assert_eq!(rt; query_fields, (SENDER, LAMP_PROFILE, 70, true));
    Ok(())
}

// The plan for the sender.
#[derive(Clone, Copy)]
enum ExpectedPlan {
    Silent,
    // It is learned with this profile and this maker, and the empty label.
    Add(Eep, Option<u16>),
    Forget,
    Refuse(Outcome),
}

fn is_expected_plan(plan: &Plan, expected_plan: ExpectedPlan) -> bool {
    match (plan, expected_plan) {
        (Plan::Silent, ExpectedPlan::Silent) => true,
        (Plan::Add(device), ExpectedPlan::Add(eep, maker)) => {
            device.id == SENDER
                && device.eep == eep
                && device.maker == maker
                && device.label.as_str().is_empty()
        }
        (Plan::Forget(id), ExpectedPlan::Forget) => *id == SENDER,
        (Plan::Refuse(why), ExpectedPlan::Refuse(expected_plan)) => *why == expected_plan,
        _ => false,
    }
}

// A telegram, a mode, whether the sender is known, and the plan.
struct PlanCase {
    telegram: (u8, &'static [u8]),
    mode: Mode,
    known: bool,
    wanted: ExpectedPlan,
}

const PLAN_CASES: [PlanCase; 8] = [
    PlanCase {
        telegram: (0xD5, &[0x00]),
        mode: Mode::Learn,
        known: false,
        wanted: ExpectedPlan::Add(CONTACT_PROFILE, None),
    },
    PlanCase {
        telegram: (0xD5, &[0x00]),
        mode: Mode::Closed,
        known: false,
        wanted: ExpectedPlan::Silent,
    },
    PlanCase {
        telegram: (0xA5, &[0x00, 0x00, 0x00, 0x00]),
        mode: Mode::Learn,
        known: false,
        wanted: ExpectedPlan::Refuse(Outcome::NoProfile),
    },
    PlanCase {
        telegram: (0xD4, &LAMP_UTE_QUERY),
        mode: Mode::LearnAnswer,
        known: false,
        wanted: ExpectedPlan::Add(LAMP_PROFILE, Some(70)),
    },
    PlanCase {
        telegram: (0xD4, &LAMP_UTE_DELETION_QUERY),
        mode: Mode::Learn,
        known: true,
        wanted: ExpectedPlan::Forget,
    },
    PlanCase {
        telegram: (0xF6, &[0x10]),
        mode: Mode::LearnAs(ROCKER_PROFILE),
        known: false,
        wanted: ExpectedPlan::Add(ROCKER_PROFILE, None),
    },
    PlanCase {
        telegram: (0xF6, &[0x10]),
        mode: Mode::LearnAs(ROCKER_PROFILE),
        known: true,
        wanted: ExpectedPlan::Silent,
    },
    // Not even with exactly the profile of the mode, which the gateway never has.
    PlanCase {
        telegram: (0xD4, &LAMP_UTE_QUERY),
        mode: Mode::LearnAs(UTE_PROFILE),
        known: false,
        wanted: ExpectedPlan::Silent,
    },
];

#[test]
fn telegrams_have_plans(rt: HostRuntime) -> Result<(), Fail> {
    for (case_number, case) in PLAN_CASES.iter().enumerate() {
        let (rorg, payload) = case.telegram;
        let plan = plan(&telegram(rorg, payload)?, case.mode, case.known);
        assert!(rt;
            is_expected_plan(&plan, case.wanted),
            "row {case_number}: {plan:?}"
        );
    }
    Ok(())
}

// A profile of each crate of profiles, and one that cannot be learned.
const PROFILES_AND_SUPPORT: [(Eep, bool); 4] = [
    (ROCKER_PROFILE, true),
    (THERMOMETER_PROFILE, true),
    (LAMP_PROFILE, true),
    (UTE_PROFILE, false),
];

#[test]
fn profiles_are_supported_or_not(rt: HostRuntime) {
    for (case_number, (eep, is_supported)) in PROFILES_AND_SUPPORT.iter().enumerate() {
        assert_eq!(rt; supported(*eep), *is_supported, "row {case_number}");
    }
}

// The RORG, the payload, the sender and the destination of a telegram.
fn telegram_fields(telegram: &Telegram) -> (u8, &[u8], u32, u32) {
    (
        telegram.rorg(),
        telegram.payload(),
        telegram.sender(),
        telegram.dest(),
    )
}

// From the last base ID. The replies of `Accepted` and `Deleted` need a receipt, and so a database: the sessions have
// them.
#[test]
fn four_byte_reply_has_fields(rt: HostRuntime) -> Result<(), Fail> {
    let query = four_byte_query(&THERMOMETER_4BS_QUERY)?;
    let verdict = Verdict::refused(query.id(), Outcome::Full);
    let reply = four_byte_reply(&query, &verdict, LAST_BASE);
    let payload = [0x08, 0x28, 0x46, 0xD0];
    assert_eq!(rt;
        telegram_fields(&reply),
        (0xA5, payload.as_slice(), LAST_BASE, SENDER)
    );
    Ok(())
}

#[test]
fn ute_reply_has_fields(rt: HostRuntime) -> Result<(), Fail> {
    let query = ute_query(&LAMP_UTE_QUERY)?;
    let verdict = Verdict::refused(query.id(), Outcome::Unsupported);
    let reply = ute_reply(&query, &verdict, LAST_BASE);
    let payload = [0xB1, 0x01, 0x46, 0x00, 0x12, 0x01, 0xD2];
    assert_eq!(rt;
        telegram_fields(&reply),
        (0xD4, payload.as_slice(), LAST_BASE, SENDER)
    );
    Ok(())
}
