//! Numbering names in the order of first appearance.

ghost use Rattle.std.specs.Prelude.{◌≡◌, ◌+◌, ◌++◌, ◌<◌, ◌≤◌, [], ◌∷◌, length, map, position, slice_get, Some, None, OnOk, OnErr, IfOk, IfErr};
ghost use Rattle.std.specs.Str.{bytes_eq};
ghost use Rattle.indexmap.specs.IndexSet.{insert_key, insert_all};
ghost use Rattle.bench_reader.specs.Netlists.{out_of_memory, place};
ghost use Rattle.bench_reader.specs.Views.{each_now};
ghost use Rattle.bench_reader.specs.inner.Chains as chains;

use crate::chains::{Chains, hash_of};
use crate::fault::BenchFault;
use crate::index::Index;
use crate::text_list::TextList;
use std::alloc::{AllocError, Global};
use std::marker::Model;

/// Names, each once, numbered from 0 in the order in which they came.
#[derive(Drop)]
pub struct Names {
    texts: TextList,
    index: Index,
}

impl Model for Names {
    ghost use Rattle.std.specs.Prelude.{List, ℕ};

    ghost Value = { List (List ℕ) };

    ghost use Rattle.bench_reader.specs.inner.Index.{IsIndex};

    ghost view = { λ n. n.texts };

    ghost invariant = { λ n. IsIndex n.texts n.index };
}

impl Names {
    /// No names, and buckets for so many.
    pub fn with_room(alloc: Global, count: usize) -> Result<Names, AllocError>
        requires some { 0 < count }
        requires few { count < 4294967296 }
        ensures { IfOk result (λ names. names ≡ []) }
    {
        let texts = TextList::new(alloc);
        let index = Index::Chains(Chains::of_names(alloc, &texts, count)?);
        Ok(Names { texts, index })
    }

    pub fn len(&self) -> usize
        ensures { result ≡ length self.now }
    {
        self.texts.len()
    }

    /// The name with this number.
    pub fn get(&self, number: usize) -> &[u8]
        requires { number < length self.now }
        ensures { slice_get self.now number ≡ Some result.now }
    {
        self.texts.get(number)
    }

    /// The number of the name, if it has one.
    pub fn find(&self, name: &[u8]) -> Option<u32>
        ensures { result ≡ position (bytes_eq name.now) self.now }
    {
        self.find_hashed(name, hash_of(name))
    }

    #[inline(always)]
    fn find_hashed(&self, name: &[u8], hash: u64) -> Option<u32>
        requires { hash ≡ chains.hash_of name.now }
        ensures { result ≡ position (bytes_eq name.now) self.now }
    {
        self.index.find(&self.texts, name, hash)
    }

    /// Gives a new name the next number.
    #[inline(never)]
    fn add(&mut self, alloc: Global, name: &[u8], hash: u64) -> Result<u32, AllocError>
        requires hash { hash ≡ chains.hash_of name.now }
        requires few { length self.old < 2147483648 }
        requires fresh { position (bytes_eq name.now) self.old ≡ None }
        ensures added { OnOk result (self.new ≡ self.old ++ name.now ∷ []) }
        ensures number { IfOk result (λ number. number ≡ length self.old) }
        ensures unchanged { OnErr result (self.new ≡ self.old) }
    {
        self.index.make_room(alloc, &self.texts)?;
        let number = self.texts.len();
        self.index.add(&mut self.texts, name, hash)?;
        Ok(number as u32)
    }

    /// The number of a name; a new name is copied and gets the next number.
    #[inline(always)]
    pub fn number(&mut self, alloc: Global, name: &[u8]) -> Result<u32, BenchFault>
        requires { length self.old < 2147483648 }
        ensures keys { OnOk result (self.new ≡ insert_key bytes_eq self.old name.now) }
        ensures place { IfOk result (λ id. id ≡ place self.new name.now) }
        ensures within { IfOk result (λ id. id < length self.new) }
        ensures grows { length self.old ≤ length self.new }
        ensures room { length self.new ≤ length self.old + 1 }
        ensures memory { IfErr result (λ fault. fault ≡ out_of_memory) }
    {
        let hash = hash_of(name);
        match self.find_hashed(name, hash) {
            Some(number) => Ok(number),
            None => Ok(self.add(alloc, name, hash)?),
        }
    }

    /// Adds the numbers of some names to a list.
    pub fn number_all(
        &mut self,
        alloc: Global,
        numbers: &mut Vec<u32>,
        listed: &[&[u8]],
    ) -> Result<(), BenchFault>
        requires { length self.old + length listed.now < 2147483648 }
        ensures keys { OnOk result (self.new ≡ insert_all bytes_eq self.old (each_now listed.now)) }
        ensures numbers { OnOk result (numbers.new.items ≡ numbers.old.items ++ map (place self.new)
            (each_now listed.now)) }
        ensures grows { length self.old ≤ length self.new }
        ensures room { length self.new ≤ length self.old + length listed.now }
        ensures memory { IfErr result (λ fault. fault ≡ out_of_memory) }
    {
        for name in listed {
            numbers.push(self.number(alloc, name)?)?;
        }
        Ok(())
    }
}
