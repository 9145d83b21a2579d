//! Slots in chains by the hashes of their keys.

ghost use Rattle.std.specs.Prelude.{◌≡◌, ◌≢◌, ◌<◌, ◌≤◌, ◌+◌, ◌-◌, ◌*◌, ◌^◌, ◌++◌, ◌∷◌, [], ℕ};
ghost use Rattle.std.specs.Prelude.{if◌then◌else◌, length, min, List, IsTrue, IsFalse, MatchOption};
ghost use Rattle.std.specs.Prelude.{OnOk};
ghost use Rattle.std.specs.Prelude.{slice_index, slice_index_or, slice_set};
ghost use Rattle.closed_table.specs.Chains.{key_hash, place, bucket_with, AreBitsFor};
ghost use Rattle.closed_table.specs.Chains.{HasPlacesBelow};
ghost use Rattle.closed_table.specs.Chains.{IsIndexInOrder, IsIndexGrown, IsPlace, HasNextChains};
ghost use Rattle.closed_table.specs.Chains.{HasNoKey};
ghost use Rattle.closed_table.specs.Chains.{key_at, key_in, chain_count, row_of_slot};
ghost use Rattle.closed_table.specs.Chains.{rows_of_slots, new_row};
ghost use Rattle.closed_table.specs.Chains.{bucket_part, stays, moves_on, AreClear, IsClearAt};
ghost use Rattle.closed_table.specs.Chains.{IsRelinked, MayBeRelinked};
ghost use Rattle.closed_table.specs.declared.index.TheConstants.{FIRST_CHAINS, LOAD};

use board::Move;
use memory::{OutOfMemory, Pages};
use std::alloc::Global;

// An odd number with no pattern in its bits.
const FACTOR: u128 = 0x9E37_79B9_7F4A_7C15_F39C_C060_5CED_C835;

// The number of slots whose places and hashes a bucket has.
const ENTRIES: usize = 7;

// How many slots there are to a chain, once there are more than the first chains.
const LOAD: usize = 4;

// How many chains are made with the first slot.
const FIRST_CHAINS: usize = 127;

// How many bits of a hash tell one of the first chains.
const FIRST_BITS: u32 = 7;

// One known board. Its key is in two halves, so that a slot takes 24 bytes.
#[derive(Clone, Copy)]
pub(crate) struct Slot {
    pub(crate) high: u64,
    pub(crate) low: u64,
    pub(crate) cost: u32,
    pub(crate) via: Move,
    pub(crate) expanded: bool,
}

// The slots of a chain, in a cache line: the hashes and the places of the first ones. The others
// hang in a list, the last one first, and a filter has the bit of each hash among them. A link is
// the place of a slot and 1 more, and 0 at the end of a list.
#[derive(Clone, Copy)]
pub(crate) struct Bucket {
    pub(crate) hashes: [u32; ENTRIES],
    pub(crate) link: u32,
    pub(crate) filter: u16,
    pub(crate) count: u16,
    pub(crate) places: [u32; ENTRIES],
}

// The bucket of a chain with no slot.
pub(crate) const NO_BUCKET: Bucket = Bucket {
    hashes: [0; ENTRIES],
    link: 0,
    filter: 0,
    count: 0,
    places: [0; ENTRIES],
};

// How many lists are read ahead at once.
const LISTS_AT_ONCE: usize = 8;

// Slots in order of arrival, and the chains to which they belong by the hashes of their keys: 127
// chains with the first slot, from 508 slots on one more with each fourth. A link leads from a slot
// that is in no bucket to the one before it in its chain.
#[derive(Drop)]
pub(crate) struct Index {
    pub(crate) slots: Pages<Slot>,
    pub(crate) links: Pages<u32>,
    pub(crate) buckets: Pages<Bucket>,
    pub(crate) len: usize,
    pub(crate) bits: u32,
    // What was read ahead of lists. It is never used.
    pub(crate) ahead: u64,
}

// The two buckets that become of one: that of the slots that stay in its chain, and that of those
// that belong to the chain that is added.
#[derive(Clone, Copy)]
struct Halves {
    stay: Bucket,
    go: Bucket,
}

// Makes pages of an item until there are this many places, and one more, past a length. The pages
// that are there stay.
pub(crate) fn grow_to<T: Copy>(
    pages: &mut Pages<T>,
    alloc: Global,
    len: usize,
    count: usize,
    item: T,
) -> Result<(), OutOfMemory>
    requires { len ≤ length pages.old }
    ensures ok { OnOk result (len + count < length pages.new) }
    ensures few { length pages.new ≤ 2 ^ 32 }
    ensures kept { (more : List T) × (pages.new ≡ pages.old ++ more) }
    ensures alike { (k : ℕ) → slice_index_or pages.old k item ≡ item
        → slice_index_or pages.new k item ≡ item }
{
    'pages: while pages.len() - len <= count {
        pages.grow(alloc, item)?;
    }
    Ok(())
}

// The hash of a key.
pub(crate) fn hash(key: u128) -> u32
    ensures { result ≡ key_hash key }
{
    (key.wrapping_mul(FACTOR) >> 96) as u32
}

// The number of chains for `len` slots.
pub(crate) fn chain_count_of(len: usize) -> usize
    requires { len ≤ 2 ^ 33 }
    ensures { result ≡ chain_count len }
{
    if len == 0 {
        return 0;
    }
    ((len + (LOAD - 1)) / LOAD).max(FIRST_CHAINS)
}

// The chain to which a hash belongs, among this number of chains.
fn chain_of(hash: u32, bits: u32, chains: usize) -> usize
    requires { AreBitsFor bits chains }
    ensures { result ≡ place bits chains hash }
{
    let wide = hash as usize & ((1usize << bits) - 1);
    if wide < chains {
        wide
    } else {
        wide - (1usize << bits) / 2
    }
}

// The slot of a board that is met the first time.
fn new_slot(key: u128, cost: u32, via: Move) -> Slot
    ensures { row_of_slot result ≡ new_row key cost via }
{
    Slot {
        high: (key / 0x1_0000_0000_0000_0000) as u64,
        low: (key % 0x1_0000_0000_0000_0000) as u64,
        cost,
        via,
        expanded: false,
    }
}

// The key of a slot.
pub(crate) fn key_of(slot: Slot) -> u128
    ensures { result ≡ key_in slot }
{
    slot.high as u128 * 0x1_0000_0000_0000_0000 + slot.low as u128
}

// Puts a slot after the others of a chain.
fn put(bucket: &mut Bucket, place: usize, hash: u32)
    requires { place < 2 ^ 32 - 1 }
    ensures { bucket.new ≡ bucket_with bucket.old place hash }
{
    let count = bucket.count as usize;
    if count < ENTRIES {
        bucket.hashes[count] = hash;
        bucket.places[count] = place as u32;
        bucket.count += 1;
    } else {
        bucket.link = place as u32 + 1;
        bucket.filter |= 1u16 << (hash >> 28);
    }
}

// Whether an entry has this hash, unused entries too. All are compared: a branch on the last slot
// is often mispredicted, and mostly none has the hash.
fn has_hash(bucket: &Bucket, hash: u32) -> bool
    ensures yes { IsTrue result
        → (k : ℕ) × (k < 7) × (slice_index bucket.now.hashes k ≡ hash) }
    ensures no { IsFalse result → (k : ℕ) → k < 7 → slice_index bucket.now.hashes k ≢ hash }
{
    let mut found = false;
    'entries: for k in 0..ENTRIES {
        found |= bucket.hashes[k] == hash;
    }
    found
}

// The place of a key among the slots that a bucket has itself.
#[inline(always)]
fn find_inside(bucket: &Bucket, slots: &Pages<Slot>, key: u128, hash: u32) -> Option<usize>
    requires { HasPlacesBelow bucket.now (length slots.now) }
    ensures { MatchOption result
        ((k : ℕ) → k < bucket.now.count → slice_index bucket.now.hashes k ≡ hash
        → key_at slots.now (slice_index bucket.now.places k) ≢ key)
        (λ i. (key_at slots.now i ≡ key)
        × (k : ℕ) × (k < bucket.now.count) × (i ≡ slice_index bucket.now.places k)) }
{
    if !has_hash(bucket, hash) {
        return None;
    }
    'entries: for k in 0..bucket.count as usize {
        if bucket.hashes[k] == hash {
            let place = bucket.places[k] as usize;
            if key_of(slots.get(place)) == key {
                return Some(place);
            }
        }
    }
    None
}

// The chain of a hash in an index.
#[inline(always)]
pub(crate) fn chain_in(index: &Index, hash: u32) -> usize
    requires indexed { IsIndexInOrder index.now }
    ensures { result ≡ place index.now.bits (chain_count index.now.len) hash }
{
    chain_of(hash, index.bits, chain_count_of(index.len))
}

// The place of a key among the slots.
#[inline(always)]
pub(crate) fn find(index: &Index, key: u128, hash: u32) -> Option<usize>
    requires indexed { IsIndexInOrder index.now }
    requires hash { hash ≡ key_hash key }
    ensures { MatchOption result (HasNoKey index.now key)
        (λ i. (i < index.now.len) × (key_at index.now.slots i ≡ key)) }
{
    find_in(index, chain_in(index, hash), key, hash)
}

// The place of a key among the slots, where the chain of its hash is known.
#[inline(always)]
pub(crate) fn find_in(index: &Index, chain: usize, key: u128, hash: u32) -> Option<usize>
    requires indexed { IsIndexInOrder index.now }
    requires hash { hash ≡ key_hash key }
    requires chain { chain ≡ place index.now.bits (chain_count index.now.len) hash }
    ensures { MatchOption result (HasNoKey index.now key)
        (λ i. (i < index.now.len) × (key_at index.now.slots i ≡ key)) }
{
    if index.len == 0 {
        return None;
    }
    let bucket = index.buckets.at(chain);
    if let Some(inside) = find_inside(bucket, &index.slots, key, hash) {
        return Some(inside);
    }
    if bucket.filter & (1u16 << (hash >> 28)) == 0 {
        return None;
    }
    let mut link = bucket.link;
    'list: while link != 0 {
        let place = link as usize - 1;
        if key_of(index.slots.get(place)) == key {
            return Some(place);
        }
        link = index.links.get(place);
    }
    None
}

// Reads the bucket that `find` will read of a key. The answer means nothing.
#[inline(always)]
pub(crate) fn read_ahead(index: &Index, key: u128) -> u32
    requires indexed { IsIndexInOrder index.now }
{
    if index.len == 0 {
        return 0;
    }
    let chain = chain_of(hash(key), index.bits, chain_count_of(index.len));
    let bucket = index.buckets.at(chain);
    bucket.hashes[0] ^ bucket.places[ENTRIES - 1]
}

// Puts a slot into a bucket whose next entry is free and clear, if it belongs there. There is no
// branch to mispredict: both cases write that entry.
fn put_if(bucket: &mut Bucket, place: usize, hash: u32, belongs: bool)
    requires free { bucket.old.count < 7 }
    requires clear { IsClearAt bucket.old bucket.old.count }
    requires small { place < 2 ^ 32 }
    ensures { bucket.new ≡ if belongs then bucket_with bucket.old place hash else bucket.old }
{
    let count = bucket.count as usize;
    bucket.hashes[count] = if belongs { hash } else { 0 };
    bucket.places[count] = if belongs { place as u32 } else { 0 };
    bucket.count += belongs as u16;
}

// Divides the slots that a bucket has itself. It goes through unused entries too: a branch on the
// last slot is often mispredicted.
fn divided(bucket: &Bucket, bits: u32, chains: usize, from: usize) -> Halves
    requires bits { AreBitsFor bits chains }
    requires few { chains < 2 ^ 32 }
    requires places { HasPlacesBelow bucket.now (2 ^ 32 - 1) }
    ensures stay { result.stay ≡ bucket_part (stays bits chains from) bucket.now bucket.now.count }
    ensures go { result.go ≡ bucket_part (moves_on bits chains from) bucket.now bucket.now.count }
{
    let mut halves = Halves {
        stay: NO_BUCKET,
        go: NO_BUCKET,
    };
    let count = bucket.count as usize;
    'entries: for k in 0..ENTRIES {
        let hash = bucket.hashes[k];
        let place = bucket.places[k] as usize;
        let is_there = k < count;
        let stays = chain_of(hash, bits, chains + 1) == from;
        put_if(&mut halves.stay, place, hash, is_there & stays);
        put_if(&mut halves.go, place, hash, is_there & !stays);
    }
    halves
}

// Puts a slot of a list into its half, and gives it the link of that half.
fn put_linked(links: &mut Pages<u32>, half: &mut Bucket, place: usize, hash: u32)
    requires { IsPlace place (length links.old) }
    ensures links { links.new ≡ slice_set links.old place half.old.link }
    ensures half { half.new ≡ bucket_with half.old place hash }
{
    links.set(place, half.link);
    put(half, place, hash);
}

// Divides what is left of the list of a chain, from a link on. The last slot of the list came
// first, and is put first.
fn relink(index: &mut Index, chains: usize, from: usize, link: u32, halves: &mut Halves)
    requires { MayBeRelinked index.old.slots index.old.links index.old.len index.old.bits chains
        from link halves.old.stay halves.old.go }
    ensures done { IsRelinked index.old.slots index.old.links index.new.links index.old.len
        index.old.bits chains from link halves.new.stay halves.new.go }
    ensures kept { index.new ≡ record index.old { links = index.new.links } }
{
    if link == 0 {
        return;
    }
    let place = link as usize - 1;
    let next = index.links.get(place);
    relink(index, chains, from, next, halves);
    let hash = hash(key_of(index.slots.get(place)));
    if chain_of(hash, index.bits, chains + 1) == from {
        put_linked(&mut index.links, &mut halves.stay, place, hash);
    } else {
        put_linked(&mut index.links, &mut halves.go, place, hash);
    }
}

// How many bits of a hash tell its chain when there is one chain more than these.
fn bits_for_more(bits: u32, chains: usize) -> u32
    requires bits { AreBitsFor bits chains }
    requires high { chains ≤ 2 ^ bits }
    requires few { chains < 2 ^ 32 - 1 }
    ensures bits { AreBitsFor result chains }
    ensures high { chains < 2 ^ result }
    ensures places { (hash : ℕ) → place result chains hash ≡ place bits chains hash }
{
    if chains == 1usize << bits {
        return bits + 1;
    }
    bits
}

// The chain that is divided next: the first one where the chains are doubled already.
fn next_divided(bits: u32, chains: usize) -> usize
    requires { bits ≤ 32 }
{
    let all = 1usize << bits;
    if chains >= all {
        return 0;
    }
    chains.saturating_sub(all / 2)
}

// Reads ahead, for every eighth chain that is divided, what `relink` will read first of the lists of
// this one and the seven next, so that the reads of memory overlap. The answer means nothing.
fn read_lists(index: &Index) -> u64
    requires small { index.now.bits ≤ 32 }
    requires few { index.now.len ≤ 2 ^ 33 }
{
    let chains = chain_count_of(index.len);
    let next = next_divided(index.bits, chains);
    if next % LISTS_AT_ONCE != 0 {
        return 0;
    }
    let mut all = 0;
    'chains: for ahead in 0..LISTS_AT_ONCE {
        all ^= read_list(index, next.saturating_add(ahead));
    }
    all
}

// Reads the first slot of the list of a chain and its link, if there are both.
fn read_list(index: &Index, chain: usize) -> u64 {
    if chain >= index.buckets.len() {
        return 0;
    }
    let link = index.buckets.at(chain).link as usize;
    if link == 0 || link > index.slots.len() || link > index.links.len() {
        return 0;
    }
    index.slots.at(link - 1).high ^ u64::from(index.links.get(link - 1))
}

// Adds a chain, and divides the one chain that it halves.
#[inline(never)]
fn add_chain(index: &mut Index)
    requires indexed { IsIndexInOrder index.old }
    requires many { FIRST_CHAINS * LOAD ≤ index.old.len }
    requires room { chain_count index.old.len < length index.old.buckets }
    ensures grown { IsIndexGrown index.old index.new (chain_count index.old.len + 1) index.old.len }
    ensures slots { index.new.slots ≡ index.old.slots }
{
    let chains = chain_count_of(index.len);
    let bits = bits_for_more(index.bits, chains);
    index.bits = bits;
    let from = chains - (1usize << bits) / 2;
    let bucket = index.buckets.get(from);
    let mut halves = divided(&bucket, bits, chains, from);
    relink(index, chains, from, bucket.link, &mut halves);
    index.buckets.set(from, halves.stay);
    index.buckets.set(chains, halves.go);
}

// Clears the buckets of the first chains, where no slot is left. Others are written when their
// chains are added.
pub(crate) fn clear_first_buckets(buckets: &mut Pages<Bucket>)
    ensures clear { AreClear buckets.new }
{
    'chains: for chain in 0..buckets.len().min(FIRST_CHAINS) {
        buckets.set(chain, NO_BUCKET);
    }
}

// Makes the first chains, where there is no slot. No bucket is written: each is that of a chain
// with no slot since its page was made, or since it was cleared.
fn make_first_chains(index: &mut Index)
    requires none { index.old.len ≡ 0 }
    requires room { 127 ≤ length index.old.buckets }
    requires clear { AreClear index.old.buckets }
    ensures grown { IsIndexGrown index.old index.new 127 index.old.len }
    ensures slots { index.new.slots ≡ index.old.slots }
{
    index.bits = FIRST_BITS;
}

// Makes as many chains as are wanted where a slot is added. Answers the chain of a hash among them,
// which was this one before.
#[inline(always)]
fn make_chains(index: &mut Index, chain: usize, hash: u32) -> usize
    requires chains { HasNextChains index.old }
    requires chain { chain ≡ place index.old.bits (chain_count index.old.len) hash }
    ensures chain { result ≡ place index.new.bits (chain_count (index.new.len + 1)) hash }
    ensures grown { IsIndexGrown index.old index.new (chain_count (index.old.len + 1)) index.old.len }
    ensures slots { index.new.slots ≡ index.old.slots }
{
    if index.len == 0 {
        make_first_chains(index);
        return chain_of(hash, index.bits, chain_count_of(index.len + 1));
    }
    if index.len < FIRST_CHAINS * LOAD || index.len % LOAD != 0 {
        return chain;
    }
    let ahead = read_lists(index);
    add_chain(index);
    index.ahead = ahead;
    chain_of(hash, index.bits, chain_count_of(index.len + 1))
}

// Adds a slot for a key that has none. The chain of its hash is known.
#[inline(always)]
pub(crate) fn add(index: &mut Index, chain: usize, key: u128, hash: u32, cost: u32, via: Move)
    requires chains { HasNextChains index.old }
    requires place { IsPlace index.old.len (min (length index.old.slots) (length index.old.links)) }
    requires hash { hash ≡ key_hash key }
    requires absent { HasNoKey index.old key }
    requires chain { chain ≡ place index.old.bits (chain_count index.old.len) hash }
    ensures grown { IsIndexGrown index.old index.new (chain_count index.new.len) (index.old.len + 1) }
    ensures rows { rows_of_slots index.new.slots index.new.len ≡ rows_of_slots index.old.slots index.old.len
        ++ new_row key cost via ∷ [] }
{
    let chain = make_chains(index, chain, hash);
    let place = index.len;
    let bucket = index.buckets.at_mut(chain);
    index.links.set(place, bucket.link);
    index.slots.set(place, new_slot(key, cost, via));
    put(bucket, place, hash);
    index.len = place + 1;
}
