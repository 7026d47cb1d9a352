//! Names in chains, by a hash.

ghost use Rattle.std.specs.Prelude.{◌≡◌, ◌+◌, ◌++◌, ◌<◌, ◌≤◌, ◌^◌, [], ◌∷◌, length, set, slice_index, position, fold, None, MatchOption, IfOk, OnOk, OnErr};
ghost use Rattle.std.specs.Str.{bytes_eq};
ghost use Rattle.bench_reader.specs.inner.Chains.{AreChained, BeginsChain, IsEachOnce, IsNowhere, HasNumber};
ghost use Rattle.bench_reader.specs.inner.Chains as chains;

use crate::text_list::TextList;
use std::alloc::{AllocError, Global};

/// Names by the buckets of their hashes. A name's entry here is its number, from 1 on; 0 is none.
#[derive(Drop)]
pub struct Chains {
    /// The last name of each bucket.
    pub latest: Vec<u32>,
    /// For each name the one before it in its bucket.
    pub earlier: Vec<u32>,
    /// Whether a name was linked to a chain that had the most names.
    pub is_crowded: bool,
}

/// The fewest buckets, once there are names.
const FEWEST: usize = 16;

/// Only names that were chosen for it make a longer chain.
const MOST_IN_CHAIN: usize = 32;

/// 2 to the 64, divided by the golden ratio.
const MIXER: u64 = 11_400_714_819_323_198_485;

const HALF_WORD: u64 = 4_294_967_296;

/// The hash with one more word.
fn mixed(hash: u64, word: u64) -> u64
    ensures { result ≡ chains.mixed_hash hash word }
{
    (hash ^ word).wrapping_mul(MIXER)
}

#[inline(never)]
fn by_bytes(name: &[u8]) -> u64
    ensures { result ≡ fold chains.mixed_hash 0 name.now }
{
    let mut hash: u64 = 0;
    for byte in name {
        hash = mixed(hash, *byte as u64);
    }
    hash
}

/// By the first four bytes and the last four.
fn by_fours(name: &[u8]) -> u64
    requires { 4 ≤ length name.now }
    ensures { result ≡ chains.by_fours name.now }
{
    let first = u32::from_le_bytes(*name.first_chunk().unwrap());
    let last = u32::from_le_bytes(*name.last_chunk().unwrap());
    mixed(mixed(0, first as u64), last as u64)
}

/// By the first eight bytes and the last eight.
fn by_eights(name: &[u8]) -> u64
    requires { 8 ≤ length name.now }
    ensures { result ≡ chains.by_eights name.now }
{
    let first = u64::from_le_bytes(*name.first_chunk().unwrap());
    let last = u64::from_le_bytes(*name.last_chunk().unwrap());
    mixed(mixed(0, first), last)
}

/// The hash of what stands before a name's last two bytes. Of 4 to 16 bytes, as most have, it takes two steps.
#[inline(always)]
#[tactic(auto, unfolding(crate::specs::inner::Chains::stem_hash))]
fn stem_hash(stem: &[u8]) -> u64
    ensures { result ≡ chains.stem_hash stem.now }
{
    let len = stem.len();
    if len < 4 {
        by_bytes(stem)
    } else if len <= 8 {
        by_fours(stem)
    } else if len <= 16 {
        by_eights(stem)
    } else {
        by_bytes(stem)
    }
}

/// The hash of a name. That of its stem stands in the upper half, and in the lower its last two bytes, read as two digits.
#[inline(always)]
#[tactic(auto, unfolding(crate::specs::inner::Chains::hash_of))]
pub fn hash_of(name: &[u8]) -> u64
    ensures { result ≡ chains.hash_of name.now }
{
    match name.split_last_chunk::<2>() {
        None => by_bytes(name),
        Some((stem, digits)) => {
            stem_hash(stem) / HALF_WORD * HALF_WORD + 10 * digits[0] as u64 + digits[1] as u64
        }
    }
}

/// The bucket of a hash, of so many: the one that the upper half says, and from there as many on as the lower half says, around the end.
/// So names that differ in their last two digits alone, which often follow one another, have buckets beside one another.
#[tactic(auto, unfolding(crate::specs::inner::Chains::bucket_in))]
pub fn bucket_of(hash: u64, count: usize) -> usize
    requires some { 0 < count }
    requires few { count < 4294967296 }
    ensures bucket { result ≡ chains.bucket_in count hash }
    ensures within { result < count }
{
    let first = (hash / HALF_WORD * count as u64 / HALF_WORD) as usize;
    let bucket = first + (hash % HALF_WORD) as usize;
    if bucket < count {
        bucket
    } else {
        bucket % count
    }
}

/// Whether the chain that begins with this entry has the most names.
fn is_full(earlier: &[u32], last: u32) -> bool {
    let mut last = last;
    for _ in 0..MOST_IN_CHAIN {
        if last == 0 {
            return false;
        }
        last = earlier.get(last as usize - 1).copied().unwrap_or(0);
    }
    true
}

impl Chains {
    /// Puts the name with the next number into its bucket.
    pub fn link(&mut self, number: usize, bucket: usize)
        requires number { number < length self.old.earlier.items }
        requires bucket { bucket < length self.old.latest.items }
        requires few { number + 1 < 4294967296 }
        ensures latest { self.new.latest.items ≡ set self.old.latest.items bucket (number + 1) }
        ensures earlier { self.new.earlier.items ≡ set self.old.earlier.items number
            (slice_index self.old.latest.items bucket) }
    {
        self.is_crowded = self.is_crowded || is_full(&self.earlier, self.latest[bucket]);
        self.earlier[number] = self.latest[bucket];
        self.latest[bucket] = number as u32 + 1;
    }

    /// All these names in chains, by so many buckets.
    pub fn of_names(alloc: Global, names: &TextList, count: usize) -> Result<Chains, AllocError>
        requires room { length names.now < count }
        requires few { count < 4294967296 }
        ensures chained { IfOk result (λ all. AreChained names.now all.latest.items
            all.earlier.items) }
        ensures buckets { IfOk result (λ all. length all.latest.items ≡ count) }
    {
        let mut all = Chains {
            latest: vec![in alloc; 0; count]?,
            earlier: vec![in alloc; 0; count]?,
            is_crowded: false,
        };
        for number in 0..names.len() {
            all.link(number, bucket_of(hash_of(names.get(number)), count));
        }
        Ok(all)
    }

    /// Makes room for one more name, where there is none, by twice as many buckets.
    pub fn make_room(&mut self, alloc: Global, names: &TextList) -> Result<(), AllocError>
        requires chained { AreChained names.now self.old.latest.items self.old.earlier.items }
        requires few { length names.now < 2147483648 }
        ensures chained { AreChained names.now self.new.latest.items self.new.earlier.items }
        ensures room { OnOk result (length names.now < length self.new.latest.items) }
    {
        let count = names.len();
        if count == self.latest.len() {
            *self = Chains::of_names(alloc, names, (2 * count).max(FEWEST))?;
        }
        Ok(())
    }

    /// The number of the name, if it is one of these.
    #[inline(always)]
    pub fn find(&self, names: &TextList, name: &[u8], hash: u64) -> Option<u32>
        requires chained { IsEachOnce names.now self.now.latest.items self.now.earlier.items }
        requires hash { hash ≡ chains.hash_of name.now }
        ensures { result ≡ position (bytes_eq name.now) names.now }
    {
        let buckets = self.latest.len();
        if buckets == 0 {
            return None;
        }
        let last = self.latest[bucket_of(hash, buckets)];
        seek(names, &self.earlier, last, name)
    }

    /// Adds a name that is new, for which there is room.
    pub fn add(&mut self, names: &mut TextList, name: &[u8], hash: u64) -> Result<(), AllocError>
        requires chained { IsEachOnce names.old self.old.latest.items self.old.earlier.items }
        requires room { length names.old < length self.old.latest.items }
        requires hash { hash ≡ chains.hash_of name.now }
        requires few { length names.old < 2147483648 }
        requires fresh { position (bytes_eq name.now) names.old ≡ None }
        ensures chained { IsEachOnce names.new self.new.latest.items self.new.earlier.items }
        ensures added { OnOk result (names.new ≡ names.old ++ name.now ∷ []) }
        ensures unchanged { OnErr result (names.new ≡ names.old) }
    {
        let number = names.len();
        names.push(name)?;
        let bucket = bucket_of(hash, self.latest.len());
        self.link(number, bucket);
        Ok(())
    }
}

/// The number of the name, in the chain that begins with this entry.
#[inline(always)]
pub fn seek(names: &TextList, earlier: &[u32], last: u32, name: &[u8]) -> Option<u32>
    requires { BeginsChain names.now earlier.now name.now last }
    ensures { MatchOption result (IsNowhere names.now name.now) (HasNumber names.now name.now) }
{
    let mut last = last;
    while last > 0 {
        let number = last - 1;
        if names.get(number as usize) == name {
            return Some(number);
        }
        last = earlier[number as usize];
    }
    None
}
