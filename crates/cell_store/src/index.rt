//! The index of a store: the place of each cell by its key.
//!
//! The cells of a signal are a list, the latest first, behind its [`Head`]. The nodes of all lists are in one array. A signal with more
//! cells than [`MOST_LISTED`] gets a map of its own, its [`SignalCells`], and its list goes into it. It has the map until this is empty.
//! Where no map can be had, further cells go into the common map, and the list stays beside. Signals with no place among the heads have all
//! their cells in the common map.

ghost use Rattle.std.specs.Prelude.{◌≡◌, true, if◌then◌else◌, ◌+◌, ◌<◌, ◌≤◌, ⊤, ℕ, None, Some, IfNone, IfOk, IfSome, OnErr, OnOk, false, length, nat_eq, option_map, slice_get, unwrap_or};
ghost use Rattle.cell_store.specs.declared.Key.{Key};
ghost use Rattle.cell_store.specs.declared.heads.More.TheVariants.{Nothing, Own};
ghost use Rattle.cell_store.specs.inner.Heads.{has_map, head_for};
ghost use Rattle.cell_store.specs.inner.Maps.{IsThere, IsUnmapped, IsWhole, mapped_in, place_of};
ghost use Rattle.cell_store.specs.inner.SignalCells.{kept_at};
ghost use Rattle.cell_store.specs.inner.Lists.{AreAllSteady, AreLists, AreSteady, IsEmptied, IsFree, IsGap, IsHeld, IsLastAt, IsListedOr, IsNoneAt, IsPutIn, IsSearchable, IsTakenOut, Same, Sets, Within, bound, first_in, firsts, held_at, held_in, key_at, link_at, link_in, listed, later_of, longer_first, or_else, place_in, place_starting, shorter_first, start_and_place, starts_at};

use crate::Key;
use crate::heads::{Head, Heads, More, no_head};
use crate::maps::Maps;
use crate::signal_cells::SignalCells;
use gate_values::Value;
use std::alloc::Global;
use std::marker::Model;
use texts::OutOfMemory;
use valid_intervals::Point;

// The most nodes of a list.
const MOST_LISTED: u8 = 16;
// Nodes have numbers of 16 bits.
const MOST_NODES: usize = 65_536;

/// What the index has of a stored cell, beside its key: its end and its value, and its slot in the cache.
#[derive(Clone, Copy)]
pub struct Place {
    pub end: u32,
    pub slot: u16,
    pub value: Value,
}

// A cell in a list, or a free node. The last node of a list, and of the free ones, links to itself.
#[derive(Clone, Copy)]
struct Node {
    signal: u32,
    start: u32,
    end: u32,
    slot: u16,
    next: u16,
    value: Value,
    live: bool,
}

// A place in a list: the node before it, and the node after it.
#[derive(Clone, Copy)]
struct Gap {
    before: Option<u16>,
    after: Option<u16>,
}

/// The places of cells by their keys. The model is the place of each key.
#[derive(Drop)]
pub struct CellIndex {
    heads: Heads,
    nodes: Vec<Node>,
    // the node that was freed last, where it is free
    free: u16,
    maps: Maps,
}

impl Model for CellIndex {
    ghost use Rattle.cell_store.specs.inner.Heads.{head_for};
    ghost use Rattle.cell_store.specs.inner.Maps.{IsWhole, Places};
    ghost use Rattle.cell_store.specs.contracts.maps.Maps as the_maps;
    ghost use Rattle.std.specs.Coded.{codes};

    ghost Value = { Places };

    ghost coded = { Prim.hlevel (codes, the_maps.the_row.coded) };

    ghost view = { λ s. record { nodes = s.nodes.items; heads = s.heads; maps = s.maps } };

    ghost invariant = { λ s. IsWhole s.nodes.items (head_for s.heads) s.maps };
}

impl CellIndex {
    /// No key has a place. There will be at most `capacity` places, or one more for a time.
    pub fn new(alloc: Global, capacity: u32, stride: u32, residue: u32) -> CellIndex
        ensures { (k : Key) → place_of result k ≡ None }
    {
        CellIndex {
            heads: Heads::new(alloc, stride, residue),
            nodes: Vec::new(alloc),
            free: 0,
            maps: Maps::new(alloc, (capacity / MOST_LISTED as u32) as usize + 1),
        }
    }

    /// The last cell of the point's signal that begins no later than the point: its start and its place.
    pub fn last_at(&self, p: Point) -> Option<(u32, Place)>
        ensures last { IfSome result (λ last. IsLastAt (place_of self.now) p last.0 last.1) }
        ensures none { IfNone result (IsNoneAt (place_of self.now) p) }
    {
        let head = self.heads.at(p.signal);
        let at = Key {
            signal: p.signal,
            start: p.time,
        };
        let gap = gap_at(&self.nodes, first_of(head), at);
        let listed = listed_at(&self.nodes, gap.after);
        later(listed, self.maps.last_at(head, p))
    }

    /// Gives a key this place. A key that has a place keeps it, and its slot is returned.
    pub fn insert_if_absent(&mut self, key: Key, place: Place) -> Result<Option<u32>, OutOfMemory>
        ensures had { IfOk result (λ had. had ≡ option_map (λ p. p.slot) (place_of self.old key)) }
        ensures new { IfOk result (λ had. IfNone had (Sets (place_of self.old) (place_of self.new) key (Some place))) }
        ensures stays { IfOk result (λ had. IfSome had (λ _. Same (place_of self.old) (place_of self.new))) }
        ensures err { OnErr result (Same (place_of self.old) (place_of self.new)) }
    {
        let head = self.heads.at(key.signal);
        if head.is_own() {
            return self.maps.insert(head, key, place);
        }
        let gap = gap_at(&self.nodes, first_of(head), key);
        if let Some(had) = place_starting(&self.nodes, gap.after, key.start) {
            return Ok(Some(had.slot as u32));
        }
        let (heads, nodes, free) = (&mut self.heads, &mut self.nodes, &mut self.free);
        if add_listed(heads, nodes, free, key, place, gap)? {
            return Ok(None);
        }
        let (heads, nodes, free) = (&mut self.heads, &mut self.nodes, &mut self.free);
        use_map(heads, nodes, free, &mut self.maps, key.signal)?;
        self.maps.insert(self.heads.at(key.signal), key, place)
    }

    /// Takes the place of a key away.
    pub fn remove(&mut self, key: &Key)
        ensures { Sets (place_of self.old) (place_of self.new) key.now None }
    {
        let head = self.heads.at(key.signal);
        let gap = gap_at(&self.nodes, first_of(head), *key);
        let Some(i) = node_starting(&self.nodes, gap.after, key.start) else {
            remove_mapped(&mut self.heads, &mut self.maps, head, key);
            return;
        };
        let next = link_of(i, &self.nodes[i as usize]);
        take_out(&mut self.nodes, i, gap.before, next, self.free);
        self.free = i;
        self.heads
            .replace(key.signal, shorter(head, gap.before, next));
    }
}

fn first_of(head: Head) -> Option<u16>
    ensures { result ≡ first_in head }
{
    if head.many == 0 {
        None
    } else {
        Some(head.first)
    }
}

fn link_of(i: u16, node: &Node) -> Option<u16>
    ensures { result ≡ link_in i node.now }
{
    if node.next == i {
        None
    } else {
        Some(node.next)
    }
}

fn next_of(i: u16, link: Option<u16>) -> u16
    ensures { result ≡ unwrap_or link i }
{
    match link {
        Some(next) => next,
        None => i,
    }
}

// Where a cell that begins at this time stands in a list.
fn gap_at(nodes: &[Node], first: Option<u16>, at: Key) -> Gap
    requires { IsSearchable nodes.now first at.signal }
    ensures { IsGap (held_at nodes.now) (link_at nodes.now) first at.signal at.start result }
{
    let mut gap = Gap {
        before: None,
        after: first,
    };
    while let Some(i) = gap.after {
        let node = nodes[i as usize];
        if node.start <= at.start {
            return gap;
        }
        gap = Gap {
            before: Some(i),
            after: link_of(i, &node),
        };
    }
    gap
}

fn listed_at(nodes: &[Node], at: Option<u16>) -> Option<(u32, Place)>
    requires { IfSome at (Within nodes.now) }
    ensures { result ≡ option_map start_and_place (bound (slice_get nodes.now) at) }
{
    let i = at?;
    let node = nodes[i as usize];
    Some((node.start, place_in(&node)))
}

// The place of a node that begins at this time.
fn place_starting(nodes: &[Node], at: Option<u16>, start: u32) -> Option<Place>
    requires { IfSome at (Within nodes.now) }
    ensures { result ≡ place_starting (bound (slice_get nodes.now) at) start }
{
    let (had, place) = listed_at(nodes, at)?;
    if had == start { Some(place) } else { None }
}

// A node, if it begins at this time.
fn node_starting(nodes: &[Node], at: Option<u16>, start: u32) -> Option<u16>
    requires { IfSome at (Within nodes.now) }
    ensures { result ≡ (if starts_at (bound (slice_get nodes.now) at) start then at else None) }
{
    let i = at?;
    if nodes[i as usize].start == start {
        Some(i)
    } else {
        None
    }
}

fn later(a: Option<(u32, Place)>, b: Option<(u32, Place)>) -> Option<(u32, Place)>
    ensures { result ≡ later_of a b }
{
    match (a, b) {
        (Some(x), Some(y)) => { if x.0 < y.0 { Some(y) } else { Some(x) } }
        (Some(x), None) => Some(x),
        (None, y) => y,
    }
}

// Puts a cell into a list, where no map has a cell of its signal, the list has room, and there can be a node. Returns whether it did.
fn add_listed(
    heads: &mut Heads,
    nodes: &mut Vec<Node>,
    free: &mut u16,
    key: Key,
    place: Place,
    gap: Gap,
) -> Result<bool, OutOfMemory>
    requires before { IfSome gap.before (IsHeld nodes.old.items) }
    requires after { IfSome gap.after (IsHeld nodes.old.items) }
    requires head { IfSome gap.before (λ _. 0 < (head_for heads.old key.signal).many) }
    ensures alone { IfOk result (λ listed. listed ≡ true → (head_for heads.old key.signal).more ≡ Nothing) }
    ensures listed { IfOk result (λ listed. IsListedOr listed nodes.old.items nodes.new.items (head_for heads.old) (head_for heads.new) key place gap) }
    ensures err { OnErr result (AreAllSteady nodes.old.items nodes.new.items (head_for heads.old) (head_for heads.new)) }
{
    let head = heads.at(key.signal);
    if !matches!(head.more, More::Nothing) || head.many >= MOST_LISTED {
        return Ok(false);
    }
    let Some(i) = free_node(nodes, free)? else {
        return Ok(false);
    };
    if !heads.set(key.signal, longer(head, gap, i))? {
        return Ok(false);
    }
    *free = put_in(nodes, i, key, place, gap);
    Ok(true)
}

// Gives a signal a map: its own, into which its list goes, or where it has none or can have none the common one.
fn use_map(
    heads: &mut Heads,
    nodes: &mut Vec<Node>,
    free: &mut u16,
    maps: &mut Maps,
    signal: u32,
) -> Result<(), OutOfMemory>
    requires whole { IsWhole nodes.old.items (head_for heads.old) maps.old }
    ensures whole { IsWhole nodes.new.items (head_for heads.new) maps.new }
    ensures told { OnOk result (has_map (head_for heads.new signal).more ≡ true) }
    ensures same { (q : Key) → or_else (listed nodes.new.items q) (mapped_in (head_for heads.new) maps.new q) ≡ or_else (listed nodes.old.items q) (mapped_in (head_for heads.old) maps.old q) }
    ensures unlisted { (q : Key) → listed nodes.old.items q ≡ None → listed nodes.new.items q ≡ None }
{
    let head = heads.at(signal);
    if head.has_map() {
        return Ok(());
    }
    if move_list(heads, nodes, free, maps, signal)? {
        return Ok(());
    }
    let head = Head {
        more: More::Common,
        ..head
    };
    heads.set(signal, head)?;
    Ok(())
}

// Moves the list of a signal into a map of its own, where one can be had. Returns whether it did.
fn move_list(
    heads: &mut Heads,
    nodes: &mut Vec<Node>,
    free: &mut u16,
    maps: &mut Maps,
    signal: u32,
) -> Result<bool, OutOfMemory>
    requires whole { IsWhole nodes.old.items (head_for heads.old) maps.old }
    requires alone { (head_for heads.old signal).more ≡ Nothing }
    ensures whole { IsWhole nodes.new.items (head_for heads.new) maps.new }
    ensures told { IfOk result (λ moved. moved ≡ true → has_map (head_for heads.new signal).more ≡ true) }
    ensures heads { IfOk result (λ moved. moved ≡ false → (s : ℕ) → head_for heads.new s ≡ head_for heads.old s) }
    ensures same { (q : Key) → or_else (listed nodes.new.items q) (mapped_in (head_for heads.new) maps.new q) ≡ or_else (listed nodes.old.items q) (mapped_in (head_for heads.old) maps.old q) }
    ensures unlisted { (q : Key) → listed nodes.old.items q ≡ None → listed nodes.new.items q ≡ None }
{
    if heads.at(signal).many == 0 {
        return Ok(false);
    }
    let cells = listed_cells(heads, nodes, signal)?;
    let Some(first) = maps.add(signal, cells)? else {
        return Ok(false);
    };
    free_list(heads, nodes, free, signal);
    let head = Head {
        first,
        many: 0,
        more: More::Own,
    };
    heads.replace(signal, head);
    Ok(true)
}

// The places of a signal's list by their starts.
fn listed_cells(heads: &Heads, nodes: &Vec<Node>, signal: u32) -> Result<SignalCells, OutOfMemory>
    requires { AreLists (held_at nodes.now.items) (link_at nodes.now.items) (firsts (head_for heads.now)) }
    ensures { IfOk result (λ cells. (t : ℕ) → kept_at cells t ≡ listed nodes.now.items (key_at signal t)) }
{
    let mut cells = SignalCells::new(*nodes.allocator());
    let mut at = first_of(heads.at(signal));
    while let Some(i) = at {
        let node = nodes[i as usize];
        cells.insert_if_absent(node.start, place_in(&node))?;
        at = link_of(i, &node);
    }
    Ok(cells)
}

// Frees the nodes of a signal's list.
fn free_list(heads: &Heads, nodes: &mut Vec<Node>, free: &mut u16, signal: u32)
    requires { AreLists (held_at nodes.old.items) (link_at nodes.old.items) (firsts (head_for heads.now)) }
    ensures { IsEmptied nodes.old.items nodes.new.items signal }
{
    let mut at = first_of(heads.at(signal));
    while let Some(i) = at {
        at = link_of(i, &nodes[i as usize]);
        write_node(nodes, i, free_at(*free));
        *free = i;
    }
}

// Takes a place away from the map of a head. A map of its own that is empty then is given up.
fn remove_mapped(heads: &mut Heads, maps: &mut Maps, head: Head, key: &Key)
    requires head { head ≡ head_for heads.old key.now.signal }
    requires there { IsThere head maps.old }
    ensures { IsUnmapped (head_for heads.old) (head_for heads.new) maps.old maps.new key.now }
{
    maps.remove(head, key);
    if maps.release_empty(head) {
        heads.replace(key.signal, no_head());
    }
}

fn place_in(node: &Node) -> Place
    ensures { result ≡ place_in node.now }
{
    Place {
        end: node.end,
        slot: node.slot,
        value: node.value,
    }
}

// The number of a free node, if there can be one. It is free as the next that will be taken.
fn free_node(nodes: &mut Vec<Node>, free: &mut u16) -> Result<Option<u16>, OutOfMemory>
    ensures steady { AreSteady nodes.old.items nodes.new.items }
    ensures free { IfOk result (λ found. IfSome found (IsFree nodes.new.items)) }
    ensures longer { length nodes.old.items ≤ length nodes.new.items }
{
    if let Some(node) = nodes.get(*free as usize) {
        if !node.live {
            return Ok(Some(*free));
        }
    }
    if nodes.len() >= MOST_NODES {
        return Ok(None);
    }
    let i = nodes.len() as u16;
    nodes.push(free_at(i))?;
    *free = i;
    Ok(Some(i))
}

fn free_at(next: u16) -> Node
    ensures free { held_in result ≡ None }
    ensures next { result.next ≡ next }
{
    Node {
        signal: 0,
        start: 0,
        end: 0,
        slot: 0,
        next,
        value: Value::Zero,
        live: false,
    }
}

fn longer(head: Head, gap: Gap, i: u16) -> Head
    requires room { head.many < 255 }
    requires listed { IfSome gap.before (λ _. 0 < head.many) }
    ensures first { first_in result ≡ longer_first head gap.before i }
    ensures more { result.more ≡ head.more }
{
    Head {
        first: if gap.before.is_none() { i } else { head.first },
        many: head.many + 1,
        more: head.more,
    }
}

fn shorter(head: Head, before: Option<u16>, next: Option<u16>) -> Head
    requires { 0 < head.many }
    ensures first { first_in result ≡ shorter_first head before next }
    ensures more { result.more ≡ head.more }
{
    match (before, next) {
        (None, None) => Head {
            first: 0,
            many: 0,
            more: head.more,
        },
        (None, Some(next)) => Head {
            first: next,
            many: (head.many - 1).max(1),
            more: head.more,
        },
        (Some(_), _) => Head {
            first: head.first,
            many: (head.many - 1).max(1),
            more: head.more,
        },
    }
}

// Puts a cell into a free node, and this into a list. Returns the next free node.
fn put_in(nodes: &mut Vec<Node>, i: u16, key: Key, place: Place, gap: Gap) -> u16
    requires free { IsFree nodes.old.items i }
    requires before { IfSome gap.before (IsHeld nodes.old.items) }
    requires after { IfSome gap.after (IsHeld nodes.old.items) }
    ensures { IsPutIn nodes.old.items nodes.new.items i key place gap }
{
    let free = nodes[i as usize].next;
    let node = Node {
        signal: key.signal,
        start: key.start,
        end: place.end,
        slot: place.slot,
        next: next_of(i, gap.after),
        value: place.value,
        live: true,
    };
    write_node(nodes, i, node);
    if let Some(p) = gap.before {
        set_next(nodes, p, i);
    }
    free
}

// Takes a node out of its list, and frees it.
fn take_out(nodes: &mut Vec<Node>, i: u16, before: Option<u16>, next: Option<u16>, free: u16)
    requires within { i < length nodes.old.items }
    requires before { IfSome before (λ p. IsHeld nodes.old.items p × (p ≡ i → ⊥)) }
    requires next { IfSome before (λ p. next ≡ Some p → ⊥) }
    ensures { IsTakenOut nodes.old.items nodes.new.items i before next }
{
    write_node(nodes, i, free_at(free));
    if let Some(p) = before {
        set_next(nodes, p, next_of(p, next));
    }
}

fn write_node(nodes: &mut Vec<Node>, i: u16, node: Node)
    requires { i < length nodes.old.items }
    ensures held { (j : ℕ) → held_at nodes.new.items j ≡ (if nat_eq i j then held_in node else held_at nodes.old.items j) }
    ensures link { (j : ℕ) → link_at nodes.new.items j ≡ (if nat_eq i j then link_in i node else link_at nodes.old.items j) }
    ensures within { length nodes.new.items ≡ length nodes.old.items }
{
    nodes[i as usize] = node;
}

// Links a node to another, or to itself.
fn set_next(nodes: &mut Vec<Node>, i: u16, next: u16)
    requires { i < length nodes.old.items }
    ensures held { (j : ℕ) → held_at nodes.new.items j ≡ held_at nodes.old.items j }
    ensures link { (j : ℕ) → link_at nodes.new.items j ≡ (if nat_eq i j then (if nat_eq next i then None else Some next) else link_at nodes.old.items j) }
{
    let mut node = nodes[i as usize];
    node.next = next;
    write_node(nodes, i, node);
}
