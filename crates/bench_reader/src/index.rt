//! By what a name is found.

ghost use Rattle.std.specs.Prelude.{◌≡◌, ◌++◌, ◌<◌, [], ◌∷◌, length, position, None, OnOk, OnErr};
ghost use Rattle.std.specs.Str.{bytes_eq};
ghost use Rattle.bench_reader.specs.inner.Chains as chains;
ghost use Rattle.bench_reader.specs.inner.Index.{HasRoom, IsIndex};

use crate::chains::Chains;
use crate::keyed::Keyed;
use crate::text_list::TextList;
use std::alloc::{AllocError, Global};

/// By what a name is found: by the bucket of a cheap hash, or by a strong hash once a bucket has too many names.
#[derive(Drop)]
pub enum Index {
    Chains(Chains),
    Keyed(Keyed),
}

impl Index {
    /// The number of the name, if it is one of these.
    #[inline(always)]
    pub fn find(&self, names: &TextList, name: &[u8], hash: u64) -> Option<u32>
        requires index { IsIndex names.now self.now }
        requires hash { hash ≡ chains.hash_of name.now }
        ensures { result ≡ position (bytes_eq name.now) names.now }
    {
        match self {
            Index::Chains(chains) => chains.find(names, name, hash),
            Index::Keyed(keyed) => keyed.find(names, name),
        }
    }

    /// Makes room for one more name. From a chain that is too long on, names are found by a strong hash.
    pub fn make_room(&mut self, alloc: Global, names: &TextList) -> Result<(), AllocError>
        requires index { IsIndex names.now self.old }
        requires few { length names.now < 2147483648 }
        ensures index { IsIndex names.now self.new }
        ensures room { OnOk result (HasRoom names.now self.new) }
    {
        let is_crowded = match self {
            Index::Chains(chains) => {
                chains.make_room(alloc, names)?;
                chains.is_crowded
            }
            Index::Keyed(keyed) => {
                keyed.make_room(names)?;
                false
            }
        };
        if is_crowded {
            *self = Index::Keyed(Keyed::of_names(alloc, names)?);
        }
        Ok(())
    }

    /// Adds a name that is new, for which there is room.
    pub fn add(&mut self, names: &mut TextList, name: &[u8], hash: u64) -> Result<(), AllocError>
        requires index { IsIndex names.old self.old }
        requires room { HasRoom names.old self.old }
        requires hash { hash ≡ chains.hash_of name.now }
        requires few { length names.old < 2147483648 }
        requires fresh { position (bytes_eq name.now) names.old ≡ None }
        ensures index { IsIndex names.new self.new }
        ensures added { OnOk result (names.new ≡ names.old ++ name.now ∷ []) }
        ensures unchanged { OnErr result (names.new ≡ names.old) }
    {
        match self {
            Index::Chains(chains) => chains.add(names, name, hash),
            Index::Keyed(keyed) => keyed.add(names, name),
        }
    }
}
