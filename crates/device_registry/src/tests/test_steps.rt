//! Calls of a registry as data, each with its expected answer.
ghost use Rattle.std.specs.Prelude.{◌≤◌};
ghost use Rattle.device_registry.specs.Opening.{max_cached};

use super::cached_registry::CachedRegistry;
use super::fixtures::{
    KnownDevice, NewConnection, is_full_fault, known_contact, known_contact_or_sensor,
    new_registry, open_outside_transaction, relabel, varied_device,
};
use std::alloc::Global;
use std::process::Abort;
use std::test::Fail;

/// A call of a registry, or a look into its cache.
#[derive(Clone, Copy)]
pub enum TestStep {
    /// The look-up of a sender finds this device, or none.
    Finds(u32, Option<KnownDevice>),
    /// The device is learned.
    Learns(KnownDevice),
    /// The registry is full for the device.
    IsFullFor(KnownDevice),
    /// The sender gets this label, if it is learned; the flag says whether it is.
    Relabels(u32, &'static str, bool),
    /// The sender is forgotten.
    Forgets(u32),
    /// This many devices are listed.
    Counts(usize),
    /// The device at this index of the list, from 0 on.
    Lists(usize, KnownDevice),
    /// The cache entry of a sender, if there is one.
    Remembers(u32, Option<Option<KnownDevice>>),
    /// This many senders are cached.
    RemembersSoMany(usize),
    /// A step for each of this many senders, with the IDs from 0 on.
    Bulk(BulkStep, u32),
}

/// Steps for many senders.
#[derive(Clone, Copy)]
pub enum BulkStep {
    /// None of them is learned.
    FindsNone,
    /// Contacts are learned.
    LearnsContacts,
    /// Contacts and sensors are learned alternately.
    LearnsInTurn,
    /// Contacts and sensors are found alternately, twice each; as many senders after them are unknown.
    FindsInTurn,
    /// Contacts are cached.
    RemembersContacts,
    /// Varied devices are listed, and nothing else.
    ListsVaried,
}

/// Performs the steps in turn, over a new registry with a cache of this size, and the later steps after its database is
/// opened again.
pub fn perform_and_reopen<S: NewConnection>(
    alloc: Global,
    rt: &impl Abort,
    cache: usize,
    acts: &[TestStep],
    behind: &[TestStep],
) -> Result<(), Fail>
    requires { (1 ≤ cache) × (cache ≤ max_cached) }
{
    let mut registry = new_registry::<S>(alloc, cache)?;
    perform_all(rt, &mut registry, acts)?;
    let mut registry = open_outside_transaction(alloc, registry.close())??;
    perform_all(rt, &mut registry, behind)
}

/// Performs the steps in turn.
pub fn perform_all<R: CachedRegistry>(
    rt: &impl Abort,
    registry: &mut R,
    acts: &[TestStep],
) -> Result<(), Fail> {
    for act in acts {
        perform(rt, registry, *act)?;
    }
    Ok(())
}

fn perform<R: CachedRegistry>(
    rt: &impl Abort,
    registry: &mut R,
    act: TestStep,
) -> Result<(), Fail> {
    match act {
        TestStep::Finds(id, wanted) => expect_found(rt, registry, id, wanted),
        TestStep::Learns(known) => learn(rt, registry, known),
        TestStep::IsFullFor(known) => expect_full_for(rt, registry, known),
        TestStep::Relabels(id, label, wanted) => expect_relabel(rt, registry, id, label, wanted),
        TestStep::Forgets(id) => expect_forgotten(rt, registry, id),
        TestStep::Counts(wanted) => expect_count(rt, registry, wanted),
        TestStep::Lists(at, wanted) => expect_listed_at(rt, registry, at, wanted),
        TestStep::Remembers(id, wanted) => expect_cached(rt, registry, id, wanted),
        TestStep::RemembersSoMany(wanted) => expect_cached_count(rt, registry, wanted),
        TestStep::Bulk(act, count) => perform_bulk_step(rt, registry, act, count),
    }
}

fn perform_bulk_step<R: CachedRegistry>(
    rt: &impl Abort,
    registry: &mut R,
    act: BulkStep,
    count: u32,
) -> Result<(), Fail> {
    match act {
        BulkStep::FindsNone => expect_none_found(rt, registry, count),
        BulkStep::LearnsContacts => learn_contacts(rt, registry, count),
        BulkStep::LearnsInTurn => learn_varied(rt, registry, count),
        BulkStep::FindsInTurn => find_varied(rt, registry, count),
        BulkStep::RemembersContacts => expect_cached_contacts(rt, registry, count),
        BulkStep::ListsVaried => expect_varied_listed(rt, registry, count),
    }
}

fn expect_found<R: CachedRegistry>(
    rt: &impl Abort,
    registry: &mut R,
    id: u32,
    wanted: Option<KnownDevice>,
) -> Result<(), Fail> {
    assert_eq!(rt; registry.find(id)?, wanted.map(KnownDevice::device), "{id}");
    Ok(())
}

fn expect_none_found<R: CachedRegistry>(
    rt: &impl Abort,
    registry: &mut R,
    count: u32,
) -> Result<(), Fail> {
    for id in 0..count {
        expect_found(rt, registry, id, None)?;
    }
    Ok(())
}

fn learn<R: CachedRegistry>(
    rt: &impl Abort,
    registry: &mut R,
    known: KnownDevice,
) -> Result<(), Fail> {
    let receipt = registry.learn(known.device_without_label())?;
    assert_eq!(rt; receipt.spend(), (known.id, true));
    Ok(())
}

fn learn_contacts<R: CachedRegistry>(
    rt: &impl Abort,
    registry: &mut R,
    count: u32,
) -> Result<(), Fail> {
    for id in 0..count {
        learn(rt, registry, known_contact(id))?;
    }
    Ok(())
}

fn learn_varied<R: CachedRegistry>(
    rt: &impl Abort,
    registry: &mut R,
    count: u32,
) -> Result<(), Fail> {
    for id in 0..count {
        learn(rt, registry, known_contact_or_sensor(id))?;
    }
    Ok(())
}

fn find_varied<R: CachedRegistry>(
    rt: &impl Abort,
    registry: &mut R,
    count: u32,
) -> Result<(), Fail> {
    for id in 0..count {
        expect_found(rt, registry, id, Some(known_contact_or_sensor(id)))?;
        expect_found(rt, registry, id, Some(known_contact_or_sensor(id)))?;
        expect_found(rt, registry, id.saturating_add(count), None)?;
    }
    Ok(())
}

fn expect_full_for<R: CachedRegistry>(
    rt: &impl Abort,
    registry: &mut R,
    known: KnownDevice,
) -> Result<(), Fail> {
    match registry.learn(known.device_without_label()) {
        Ok(receipt) => {
            let (_id, _is_learned) = receipt.spend();
            Err(Fail::from("one too many"))
        }
        Err(fault) => {
            assert!(rt; is_full_fault(&fault));
            Ok(())
        }
    }
}

fn expect_relabel<R: CachedRegistry>(
    rt: &impl Abort,
    registry: &mut R,
    id: u32,
    label: &str,
    wanted: bool,
) -> Result<(), Fail> {
    assert_eq!(rt; relabel(registry, id, label)?, Ok(wanted), "{id}, {label}");
    Ok(())
}

fn expect_forgotten<R: CachedRegistry>(
    rt: &impl Abort,
    registry: &mut R,
    id: u32,
) -> Result<(), Fail> {
    let receipt = registry.forget(id)?;
    assert_eq!(rt; receipt.spend(), (id, false));
    Ok(())
}

fn expect_count<R: CachedRegistry>(
    rt: &impl Abort,
    registry: &mut R,
    wanted: usize,
) -> Result<(), Fail> {
    assert_eq!(rt; registry.all()?.len(), wanted);
    Ok(())
}

fn expect_listed_at<R: CachedRegistry>(
    rt: &impl Abort,
    registry: &mut R,
    at: usize,
    wanted: KnownDevice,
) -> Result<(), Fail> {
    assert_eq!(rt; registry.all()?.get(at), Some(&wanted.device()), "{at}");
    Ok(())
}

fn expect_varied_listed<R: CachedRegistry>(
    rt: &impl Abort,
    registry: &mut R,
    count: u32,
) -> Result<(), Fail> {
    let mut ids = 0..count;
    for found in &registry.all()? {
        assert_eq!(rt;
            Some(found.copied()),
            ids.next().map(|id| varied_device(id).device())
        );
    }
    assert_eq!(rt; ids.next(), None);
    Ok(())
}

fn expect_cached<R: CachedRegistry>(
    rt: &impl Abort,
    registry: &R,
    id: u32,
    wanted: Option<Option<KnownDevice>>,
) -> Result<(), Fail> {
    assert_eq!(rt;
        registry.cached_entry(id),
        wanted.map(|known| known.map(KnownDevice::device)),
        "{id}"
    );
    Ok(())
}

fn expect_cached_contacts<R: CachedRegistry>(
    rt: &impl Abort,
    registry: &R,
    count: u32,
) -> Result<(), Fail> {
    for id in 0..count {
        expect_cached(rt, registry, id, Some(Some(known_contact(id))))?;
    }
    Ok(())
}

fn expect_cached_count<R: CachedRegistry>(
    rt: &impl Abort,
    registry: &R,
    wanted: usize,
) -> Result<(), Fail> {
    assert_eq!(rt; registry.cached_sender_count(), wanted);
    Ok(())
}
