//! What a section of a journal is.
ghost use Rattle.std.specs.Prelude.{◌≡◌, List};
ghost use Rattle.journal_meaning.specs.declared.Entry.{Entry};

use journal_meaning::Entry;
use std::marker::Model;

/// What a section is for: a batch of queries, a trim of the memo, or the memo of a circuit in which a
/// signal is forced.
#[derive(Clone, Copy, Debug, PartialEq, Eq)]
pub enum SectionKind {
    Batch,
    Trim,
    Held,
}

/// A section of a journal: its number, which counts the sections from 1 on, and the entries of each shard.
#[derive(Debug, Drop)]
pub struct Section {
    pub kind: SectionKind,
    pub number: u32,
    pub shards: EntryLists,
}

/// The entries of a shard, in order.
#[derive(Debug, Drop)]
pub struct EntryList {
    entries: Vec<Entry>,
}

impl Model for EntryList {
    ghost Value = { List Entry };

    ghost view = { λ list. list.entries.items };
}

impl EntryList {
    /// The list of these entries.
    pub fn from_vec(entries: Vec<Entry>) -> EntryList
        ensures { result ≡ entries.items }
    {
        EntryList { entries }
    }

    /// The entries.
    pub fn as_slice(&self) -> &[Entry]
        ensures { result.now ≡ self.now }
    {
        &self.entries
    }

    /// The entries, given up.
    pub fn into_vec(self) -> Vec<Entry>
        ensures { result.items ≡ self }
    {
        self.entries
    }
}

/// The lists of entries of all shards, in the order of the shards.
#[derive(Debug, Drop)]
pub struct EntryLists {
    lists: Vec<EntryList>,
}

impl Model for EntryLists {
    ghost Value = { List (List Entry) };

    ghost view = { λ lists. lists.lists.items };
}

impl EntryLists {
    /// These lists.
    pub fn from_vec(lists: Vec<EntryList>) -> EntryLists
        ensures { result ≡ lists.items }
    {
        EntryLists { lists }
    }

    /// The lists.
    pub fn as_slice(&self) -> &[EntryList]
        ensures { result.now ≡ self.now }
    {
        &self.lists
    }

    /// The lists, given up.
    pub fn into_vec(self) -> Vec<EntryList>
        ensures { result.items ≡ self }
    {
        self.lists
    }
}
