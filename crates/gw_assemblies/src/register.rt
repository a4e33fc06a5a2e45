//! The register of assemblies, in which one is found by its block and its set.

ghost use Rattle.std.specs.Prelude.{◌≡◌, ◌≤◌, ◌<◌, ◌+◌, ◌*◌, ◌^◌, ◌++◌, [], ◌∷◌, OnOk, Some, length, if◌then◌else◌, option_to_list, replicate, None};
ghost use Rattle.std.specs.List.{position, find};
ghost use Rattle.std.specs.Vec.{vec_len, vec_capacity};
ghost use Rattle.gw_assemblies.specs.Assembling.{is_of, with_one_come};
ghost use Rattle.gw_members.specs.Firsts.{without_first};
ghost use Rattle.gw_assemblies.specs.Register.{bucket_of, assemblies_of, assembly_count, is_entry_of, AreFiled, StayFiled};

use crate::Assembly;
use gw_members::Memory;

/// An entry of the register.
#[derive(Clone, Copy)]
pub struct Entry {
    /// The assembly.
    pub assembly: Assembly,
    /// Whether it still stands; else it is struck out.
    pub stands: bool,
    /// The place of the next older entry of its bucket, if there is one.
    pub older: Option<usize>,
}

/// What an assembly is found by.
#[derive(Clone, Copy)]
pub struct Key {
    /// The block at which it waits.
    pub block: u16,
    /// The number of its set.
    pub set: u64,
}

/// The bucket of a set at a block, where there are so many.
fn bucket_of(buckets: usize, key: Key) -> usize
    requires { 0 < buckets }
    ensures value { result ≡ bucket_of buckets key.block key.set }
    ensures within { result < buckets }
{
    let sum = key.set.wrapping_add(key.block as u64 * (1 << 40));
    let mixed = sum.wrapping_mul(11_400_714_819_323_198_485);
    ((mixed >> 20) % buckets as u64) as usize
}

impl Entry {
    /// Whether it stands, and is that of a set at a block.
    fn is_of(&self, key: Key) -> bool
        ensures { result ≡ is_entry_of key.block key.set self.now }
    {
        self.stands && self.assembly.block == key.block && self.assembly.set == key.set
    }
}

/// A place, where the entry there is that of a set at a block, else the place that was found among newer ones.
fn older_found(entry: &Entry, place: usize, found: Option<usize>, key: Key) -> Option<usize>
    ensures { result ≡ (if is_entry_of key.block key.set entry.now then Some place else found) }
{
    if entry.is_of(key) { Some(place) } else { found }
}

/// The place of the first entry that stands of a set at a block, if there is one.
pub(crate) fn place_of(entries: &[Entry], buckets: &[Option<usize>], key: Key) -> Option<usize>
    requires filed { AreFiled entries.now buckets.now (length entries.now) }
    requires some { 0 < length entries.now → 0 < length buckets.now }
    ensures { result ≡ position (is_entry_of key.block key.set) entries.now }
{
    if buckets.is_empty() {
        return None;
    }
    let mut at = buckets[bucket_of(buckets.len(), key)];
    let mut found = None;
    while let Some(place) = at {
        let entry = &entries[place];
        found = older_found(entry, place, found, key);
        at = entry.older;
    }
    found
}

/// Files the entry at a place behind the newest of its bucket, where those before it are filed.
pub(crate) fn file(entries: &mut [Entry], buckets: &mut [Option<usize>], place: usize)
    requires filed { AreFiled entries.old buckets.old place }
    requires there { place < length entries.old }
    requires some { 0 < length buckets.old }
    ensures filed { AreFiled entries.new buckets.new (place + 1) }
    ensures standing { assemblies_of entries.new ≡ assemblies_of entries.old }
    ensures len { (length entries.new ≡ length entries.old)
        × (length buckets.new ≡ length buckets.old) }
{
    let assembly = entries[place].assembly;
    let key = Key {
        block: assembly.block,
        set: assembly.set,
    };
    let bucket = bucket_of(buckets.len(), key);
    entries[place].older = buckets[bucket];
    buckets[bucket] = Some(place);
}

/// Empties the buckets.
fn clear(buckets: &mut [Option<usize>])
    ensures { buckets.new ≡ replicate (length buckets.old) None }
{
    buckets.fill(None);
}

/// Files all entries anew.
pub(crate) fn file_all(entries: &mut [Entry], buckets: &mut [Option<usize>])
    requires { 0 < length buckets.old }
    ensures filed { AreFiled entries.new buckets.new (length entries.new) }
    ensures standing { assemblies_of entries.new ≡ assemblies_of entries.old }
    ensures len { (length entries.new ≡ length entries.old)
        × (length buckets.new ≡ length buckets.old) }
{
    clear(buckets);
    for place in 0..entries.len() {
        file(entries, buckets, place);
    }
}

/// Leaves out the entries that are struck out.
pub(crate) fn sweep(entries: &mut Vec<Entry>)
    ensures standing { assemblies_of entries.new.items ≡ assemblies_of entries.old.items }
    ensures len { vec_len entries.new ≡ length (assemblies_of entries.old.items) }
    ensures fewer { vec_len entries.new ≤ vec_len entries.old }
    ensures capacity { vec_capacity entries.new ≡ vec_capacity entries.old }
{
    entries.retain(
        |e|
            ensures { result ≡ e.now.stands }
        { e.stands },
    );
}

/// Makes way for one more entry, where there are so many: those that are struck out are left out.
pub(crate) fn make_way(entries: &mut Vec<Entry>, buckets: &mut [Option<usize>], places: usize)
    requires filed { AreFiled entries.old.items buckets.old (length entries.old.items) }
    requires some { 0 < length buckets.old }
    requires few { length (assemblies_of entries.old.items) < places }
    ensures filed { AreFiled entries.new.items buckets.new (length entries.new.items) }
    ensures standing { assemblies_of entries.new.items ≡ assemblies_of entries.old.items }
    ensures len { vec_len entries.new < places }
    ensures buckets { length buckets.new ≡ length buckets.old }
    ensures capacity { vec_capacity entries.new ≡ vec_capacity entries.old }
{
    if entries.len() >= places {
        sweep(entries);
        file_all(entries, buckets);
    }
}

/// Appends an entry that isn't filed yet, where there is room.
fn append(entries: &mut Vec<Entry>, assembly: Assembly)
    requires { vec_len entries.old < vec_capacity entries.old }
    ensures filed { StayFiled (length entries.old.items) entries.old.items entries.new.items }
    ensures standing { assemblies_of entries.new.items ≡ assemblies_of entries.old.items ++ assembly ∷ [] }
    ensures len { vec_len entries.new ≡ vec_len entries.old + 1 }
    ensures capacity { vec_capacity entries.new ≡ vec_capacity entries.old }
{
    entries.push_reserved(Entry {
        assembly,
        stands: true,
        older: None,
    });
}

/// Adds an entry, where there is room.
pub(crate) fn add(entries: &mut Vec<Entry>, buckets: &mut [Option<usize>], assembly: Assembly)
    requires filed { AreFiled entries.old.items buckets.old (length entries.old.items) }
    requires some { 0 < length buckets.old }
    requires room { vec_len entries.old < vec_capacity entries.old }
    ensures filed { AreFiled entries.new.items buckets.new (length entries.new.items) }
    ensures standing { assemblies_of entries.new.items ≡ assemblies_of entries.old.items ++ assembly ∷ [] }
    ensures len { vec_len entries.new ≡ vec_len entries.old + 1 }
    ensures buckets { length buckets.new ≡ length buckets.old }
    ensures capacity { vec_capacity entries.new ≡ vec_capacity entries.old }
{
    let place = entries.len();
    append(entries, assembly);
    file(entries, buckets, place);
}

/// The assembly of a set at a block, if one stands.
pub(crate) fn find(entries: &[Entry], buckets: &[Option<usize>], key: Key) -> Option<Assembly>
    requires filed { AreFiled entries.now buckets.now (length entries.now) }
    requires some { 0 < length entries.now → 0 < length buckets.now }
    ensures { result ≡ find (is_of key.block key.set) (assemblies_of entries.now) }
{
    let place = place_of(entries, buckets, key)?;
    Some(entries[place].assembly)
}

/// One fewer is missing from the assembly of a set at a block, if one stands.
pub(crate) fn count_down(entries: &mut [Entry], buckets: &[Option<usize>], key: Key)
    requires filed { AreFiled entries.old buckets.now (length entries.old) }
    requires some { 0 < length entries.old → 0 < length buckets.now }
    ensures standing { assemblies_of entries.new ≡ with_one_come key.block key.set (assemblies_of entries.old) }
    ensures count { length (assemblies_of entries.new) ≡ length (assemblies_of entries.old) }
    ensures filed { AreFiled entries.new buckets.now (length entries.new) }
    ensures len { length entries.new ≡ length entries.old }
{
    if let Some(place) = place_of(entries, buckets, key) {
        let missing = entries[place].assembly.missing;
        entries[place].assembly.missing = missing.saturating_sub(1);
    }
}

/// Strikes out the entry of a set at a block, and answers its assembly, if one stands.
pub(crate) fn strike_out(
    entries: &mut [Entry],
    buckets: &[Option<usize>],
    key: Key,
) -> Option<Assembly>
    requires filed { AreFiled entries.old buckets.now (length entries.old) }
    requires some { 0 < length entries.old → 0 < length buckets.now }
    ensures value { result ≡ find (is_of key.block key.set) (assemblies_of entries.old) }
    ensures standing { assemblies_of entries.new
        ≡ without_first (is_of key.block key.set) (assemblies_of entries.old) }
    ensures count { assembly_count entries.new + length (option_to_list result) ≡ assembly_count entries.old }
    ensures filed { AreFiled entries.new buckets.now (length entries.new) }
    ensures len { length entries.new ≡ length entries.old }
{
    let place = place_of(entries, buckets, key)?;
    let assembly = entries[place].assembly;
    entries[place].stands = false;
    Some(assembly)
}

/// Makes room for so many assemblies, with as many entries that are struck out.
pub(crate) fn reserve(
    entries: &mut Vec<Entry>,
    buckets: &mut Vec<Option<usize>>,
    most: usize,
) -> Result<(), Memory>
    requires bound { most ≤ 2 ^ 62 }
    requires filed { AreFiled entries.old.items buckets.old.items (length entries.old.items) }
    ensures filed { AreFiled entries.new.items buckets.new.items (length entries.new.items) }
    ensures standing { assemblies_of entries.new.items ≡ assemblies_of entries.old.items }
    ensures len { vec_len entries.new ≤ vec_len entries.old }
    ensures kept { vec_capacity entries.old ≤ vec_capacity entries.new }
    ensures buckets { 0 < vec_len buckets.old → 0 < vec_len buckets.new }
    ensures room { OnOk result ((2 * most ≤ vec_capacity entries.new) × (0 < vec_len buckets.new)) }
{
    entries.reserve((2 * most).saturating_sub(entries.len()))?;
    buckets.resize(most + 1, None)?;
    sweep(entries);
    file_all(entries, buckets);
    Ok(())
}
