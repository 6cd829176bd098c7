//! The cache of looked-up senders.
ghost use Rattle.std.specs.Prelude.{◌≤◌};
ghost use Rattle.device_registry.specs.Opening.{max_cached};

use super::fixtures::{KnownDevice, known_contact, known_sensor};
use super::test_steps::{BulkStep, TestStep, perform_and_reopen};
use sqlite::MemStore;
use std::alloc::Global;
use std::process::Abort;
use std::test::Fail;

// A sender that is cached as not learned.
const CACHED_AS_NOT_LEARNED: Option<Option<KnownDevice>> = Some(None);

#[test]
fn look_up_is_cached(rt: HostRuntime) -> Result<(), Fail> {
    let before = [TestStep::Learns(known_contact(5))];
    let behind = [
        TestStep::RemembersSoMany(0),
        TestStep::Finds(5, Some(known_contact(5))),
        TestStep::Remembers(5, Some(Some(known_contact(5)))),
        TestStep::Finds(6, None),
        TestStep::Remembers(6, CACHED_AS_NOT_LEARNED),
        TestStep::Remembers(5, Some(Some(known_contact(5)))),
        TestStep::Finds(6, None),
        TestStep::Finds(5, Some(known_contact(5))),
        TestStep::Counts(1),
        TestStep::Lists(0, known_contact(5)),
        TestStep::RemembersSoMany(2),
    ];
    perform_and_reopen::<MemStore>(rt.alloc(), &rt, 64, &before, &behind)
}

#[test]
fn update_is_cached(rt: HostRuntime) -> Result<(), Fail> {
    let acts = [
        TestStep::Finds(5, None),
        TestStep::Learns(known_contact(5)),
        TestStep::Remembers(5, Some(Some(known_contact(5)))),
        TestStep::Learns(known_sensor(5)),
        TestStep::Remembers(5, Some(Some(known_sensor(5)))),
        TestStep::Finds(5, Some(known_sensor(5))),
        TestStep::Forgets(5),
        TestStep::Remembers(5, CACHED_AS_NOT_LEARNED),
        TestStep::Finds(5, None),
        TestStep::Forgets(9),
        TestStep::Remembers(9, CACHED_AS_NOT_LEARNED),
        TestStep::Learns(known_contact(9)),
        TestStep::Finds(9, Some(known_contact(9))),
    ];
    perform_and_reopen::<MemStore>(rt.alloc(), &rt, 64, &acts, &[])
}

#[test]
fn label_change_is_cached(rt: HostRuntime) -> Result<(), Fail> {
    let before = [
        TestStep::Learns(known_contact(5)),
        TestStep::Learns(known_contact(7)),
    ];
    let behind = [
        TestStep::Relabels(5, "Door", true),
        TestStep::Remembers(5, Some(Some(known_contact(5).with_label("Door")))),
        TestStep::Relabels(6, "Hall", false),
        TestStep::Remembers(6, CACHED_AS_NOT_LEARNED),
        TestStep::RemembersSoMany(2),
        TestStep::Learns(known_sensor(5)),
        TestStep::Remembers(5, Some(Some(known_sensor(5).with_label("Door")))),
        TestStep::Learns(known_sensor(6)),
        TestStep::Remembers(6, Some(Some(known_sensor(6)))),
        TestStep::Learns(known_sensor(7)),
        TestStep::Remembers(7, Some(Some(known_sensor(7)))),
        TestStep::Relabels(5, "", true),
        TestStep::Remembers(5, Some(Some(known_sensor(5)))),
        TestStep::Finds(5, Some(known_sensor(5))),
    ];
    perform_and_reopen::<MemStore>(rt.alloc(), &rt, 64, &before, &behind)
}

#[test]
fn a_cache_of_one_keeps_the_last_sender(rt: HostRuntime) -> Result<(), Fail> {
    let acts = [
        TestStep::Learns(known_contact(5)),
        TestStep::Finds(6, None),
        TestStep::Remembers(6, CACHED_AS_NOT_LEARNED),
        TestStep::Remembers(5, None),
        TestStep::Finds(5, Some(known_contact(5))),
        TestStep::Remembers(5, Some(Some(known_contact(5)))),
        TestStep::Remembers(6, None),
        TestStep::Learns(known_sensor(6)),
        TestStep::Remembers(5, None),
        TestStep::Remembers(6, Some(Some(known_sensor(6)))),
        TestStep::Forgets(5),
        TestStep::Remembers(6, None),
        TestStep::RemembersSoMany(1),
        TestStep::Finds(6, Some(known_sensor(6))),
        TestStep::Relabels(6, "Hall", true),
        TestStep::Relabels(5, "Door", false),
        TestStep::Remembers(6, None),
        TestStep::Finds(6, Some(known_sensor(6).with_label("Hall"))),
        TestStep::RemembersSoMany(1),
    ];
    perform_and_reopen::<MemStore>(rt.alloc(), &rt, 1, &acts, &[])
}

#[test]
fn opened_registry_caches_64_senders(rt: HostRuntime) -> Result<(), Fail> {
    let behind = [
        TestStep::Bulk(BulkStep::FindsNone, 65),
        TestStep::RemembersSoMany(64),
        TestStep::Remembers(0, None),
        TestStep::Remembers(1, CACHED_AS_NOT_LEARNED),
    ];
    perform_and_reopen::<MemStore>(rt.alloc(), &rt, 1, &[], &behind)
}

#[test]
fn the_least_recent_sender_is_dropped_first(rt: HostRuntime) -> Result<(), Fail> {
    let acts = [
        TestStep::Finds(1, None),
        TestStep::Finds(2, None),
        TestStep::Finds(1, None),
        TestStep::Finds(3, None),
        TestStep::Remembers(1, CACHED_AS_NOT_LEARNED),
        TestStep::Remembers(2, None),
        TestStep::Remembers(3, CACHED_AS_NOT_LEARNED),
    ];
    perform_and_reopen::<MemStore>(rt.alloc(), &rt, 2, &acts, &[])
}

#[test]
fn a_full_registry_still_caches(rt: HostRuntime) -> Result<(), Fail> {
    let acts = [
        TestStep::Bulk(BulkStep::LearnsContacts, 1000),
        TestStep::Finds(2000, None),
        TestStep::IsFullFor(known_sensor(1000)),
        TestStep::RemembersSoMany(1001),
        TestStep::Bulk(BulkStep::RemembersContacts, 1000),
        TestStep::Remembers(2000, CACHED_AS_NOT_LEARNED),
        TestStep::Finds(1000, None),
    ];
    perform_and_reopen::<MemStore>(rt.alloc(), &rt, 1024, &acts, &[])
}

// A cache of this size gives the same answers as any other, and holds this many senders afterwards.
fn gives_the_same_answers(
    alloc: Global,
    rt: &impl Abort,
    cache: usize,
    cached_entry: usize,
) -> Result<(), Fail>
    requires { (1 ≤ cache) × (cache ≤ max_cached) }
{
    let acts = [
        TestStep::Bulk(BulkStep::LearnsInTurn, 200),
        TestStep::Bulk(BulkStep::FindsInTurn, 200),
        TestStep::RemembersSoMany(cached_entry),
    ];
    perform_and_reopen::<MemStore>(alloc, rt, cache, &acts, &[])
}

#[test]
fn caches_of_each_size_give_the_same_answers(rt: HostRuntime) -> Result<(), Fail> {
    gives_the_same_answers(rt.alloc(), &rt, 1, 1)?;
    gives_the_same_answers(rt.alloc(), &rt, 64, 64)?;
    gives_the_same_answers(rt.alloc(), &rt, 1024, 400)
}
