//! Names by a strong hash.

ghost use Rattle.std.specs.Prelude.{◌≡◌, ◌++◌, ◌<◌, [], ◌∷◌, length, position, None, IfOk, OnOk, OnErr};
ghost use Rattle.std.specs.Str.{bytes_eq};
ghost use Rattle.bench_reader.specs.inner.Keyed.{AreKeyed, IsEachKeyed};

use crate::chains::seek;
use crate::sip::sip_hash;
use crate::text_list::TextList;
use std::alloc::{AllocError, Global};
use std::collections::BTreeMap;
use std::mem;

/// Names by a hash of 64 bits, in chains where several have one hash. A name's entry here is its number, from 1 on; 0 is none.
///
/// Whoever chooses the names can know the key of the hash. But to find even ten names of one hash by trial takes some 2 to the 60 trials,
/// and such names would only cost time.
#[derive(Drop)]
pub struct Keyed {
    /// The last name of each hash.
    pub latest: BTreeMap<u64, u32>,
    /// For each name the one before it of the same hash, with room for more names.
    pub earlier: Vec<u32>,
}

impl Keyed {
    /// All these names, and room for one more.
    #[cold]
    #[inline(never)]
    pub fn of_names(alloc: Global, names: &TextList) -> Result<Keyed, AllocError>
        requires few { length names.now < 2147483648 }
        ensures keyed { IfOk result (λ all. AreKeyed names.now all.latest all.earlier.items) }
        ensures room { IfOk result (λ all. length names.now < length all.earlier.items) }
    {
        let mut latest = BTreeMap::new(alloc);
        let mut earlier = vec![in alloc; 0; names.len() + 1]?;
        for number in 0..names.len() {
            let last = latest.entry(sip_hash(names.get(number)))?.or_insert(0);
            earlier[number] = mem::replace(last, number as u32 + 1);
        }
        Ok(Keyed { latest, earlier })
    }

    /// Makes room for one more name, where there is none.
    pub fn make_room(&mut self, names: &TextList) -> Result<(), AllocError>
        requires keyed { AreKeyed names.now self.old.latest self.old.earlier.items }
        ensures keyed { AreKeyed names.now self.new.latest self.new.earlier.items }
        ensures room { OnOk result (length names.now < length self.new.earlier.items) }
    {
        if names.len() == self.earlier.len() {
            self.earlier.push(0)?;
        }
        Ok(())
    }

    /// The number of the name, if it is one of these.
    #[inline(never)]
    pub fn find(&self, names: &TextList, name: &[u8]) -> Option<u32>
        requires keyed { IsEachKeyed names.now self.now.latest self.now.earlier.items }
        ensures { result ≡ position (bytes_eq name.now) names.now }
    {
        let last = self.latest.get(&sip_hash(name)).copied().unwrap_or(0);
        seek(names, &self.earlier, last, name)
    }

    /// Adds a name that is new, for which there is room.
    #[inline(never)]
    pub fn add(&mut self, names: &mut TextList, name: &[u8]) -> Result<(), AllocError>
        requires keyed { IsEachKeyed names.old self.old.latest self.old.earlier.items }
        requires room { length names.old < length self.old.earlier.items }
        requires few { length names.old < 2147483648 }
        requires fresh { position (bytes_eq name.now) names.old ≡ None }
        ensures keyed { IsEachKeyed names.new self.new.latest self.new.earlier.items }
        ensures added { OnOk result (names.new ≡ names.old ++ name.now ∷ []) }
        ensures unchanged { OnErr result (names.new ≡ names.old) }
    {
        let number = names.len();
        let last = self.latest.entry(sip_hash(name))?.or_insert(0);
        names.push(name)?;
        self.earlier[number] = mem::replace(last, number as u32 + 1);
        Ok(())
    }
}
