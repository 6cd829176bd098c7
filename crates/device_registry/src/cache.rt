//! A cache of looked-up senders, known or unknown.
ghost use Rattle.std.specs.Prelude.{◌≡◌, ◌≢◌, ◌≤◌, ◌⊎◌, [], nat_eq, None, IfSome, OnSome, IfNone, IfOk, Contains};
ghost use Rattle.std.specs.Map.{lookup, remove_entry};
ghost use Rattle.lru.specs.LruCache.{lru_cache, promoted, put_entries};

use learned_devices::Device;
use lru::LruCache;
use std::alloc::{AllocError, Global};
use std::num::NonZeroUsize;

pub type Cache = LruCache<u32, Option<Device>>;

/// An empty cache of at most `most` senders.
pub fn new_cache(alloc: Global, most: usize) -> Result<Cache, AllocError>
    requires { 1 ≤ most }
    ensures { IfOk result (λ cache. cache.entries ≡ []) }
{
    let most = NonZeroUsize::new(most).unwrap_or(NonZeroUsize::MIN);
    LruCache::new(alloc, most)
}

/// Copies the device, if there is one.
pub fn copied(known: &Option<Device>) -> Option<Device>
    ensures { result ≡ known.now }
{
    known.as_ref().map(Device::copied)
}

/// The cache entry of a sender, which becomes the last to be evicted.
pub fn look_up_cached(cache: &mut Cache, id: u32) -> Option<Option<Device>>
    ensures known { IfSome result (λ known. Contains cache.old.entries (id, known)) }
    ensures kept { (entry : _) → Contains cache.new.entries entry → Contains cache.old.entries entry }
    ensures first { OnSome result (cache.new.entries ≡ promoted (nat_eq id) cache.old.entries) }
    ensures unknown { IfNone result (lookup (nat_eq id) cache.old.entries ≡ None) }
    ensures unchanged { IfNone result (cache.new.entries ≡ cache.old.entries) }
{
    let known = cache.get(&id)?;
    Some(copied(known))
}

/// Adds or replaces the entry of a sender; a full cache then evicts its least recently used entry. If there is no
/// memory, the cache does not change.
pub fn insert_entry(cache: &mut Cache, id: u32, known: Option<Device>)
    ensures put { (cache.new ≡ cache.old)
        ⊎ (cache.new ≡ lru_cache (put_entries nat_eq cache.old id known) cache.old.cap) }
    ensures kept { (entry : _) → Contains cache.new.entries entry →
        Contains cache.old.entries entry ⊎ (entry ≡ (id, known)) }
{
    let _replaced = cache.put(id, known);
}

/// Removes the entry of a sender.
pub fn drop_entry(cache: &mut Cache, id: u32)
    ensures gone { cache.new.entries ≡ remove_entry (nat_eq id) cache.old.entries }
    ensures kept { (entry : _) → Contains cache.new.entries entry → Contains cache.old.entries entry × (entry.0 ≢ id) }
{
    // The proof uses the length: it implies that no sender is in the cache twice.
    let _len = cache.len();
    let _known = cache.pop(&id);
}
