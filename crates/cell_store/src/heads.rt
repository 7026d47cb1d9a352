//! A table of heads by signal, in pages that are made when they are needed.

ghost use Rattle.std.specs.Prelude.{◌≡◌, false, ◌<◌, ◌≤◌, ◌&&◌, ◌/◌, ◌%◌, ℕ, IfOk, OnErr, OnOk, Some, length, nat_eq, if◌then◌else◌, vec_len};
ghost use Rattle.cell_store.specs.inner.Heads.{head_at, head_for, head_on, local_of, has_map, is_own, no_head, HasHead, HasPlace};
ghost use Rattle.cell_store.specs.declared.heads.More.TheVariants.{Common};

use std::alloc::Global;
use texts::OutOfMemory;

// The number of heads of a page, and the greatest number of pages.
const PAGE: u32 = 64;

const MOST_PAGES: u32 = 65_536;

/// Where cells of a signal are, beside its list: nowhere, in a map of its own, or in the common map.
#[derive(Clone, Copy)]
pub enum More {
    Nothing,
    Own,
    Common,
}

/// Where the cells of a signal are: how many nodes its list has, and the first of these, or the number of its own map. A signal with such
/// a map has no list.
#[derive(Clone, Copy)]
pub struct Head {
    pub first: u16,
    pub many: u8,
    pub more: More,
}

impl Head {
    /// Whether the signal has a map of its own.
    pub fn is_own(&self) -> bool
        ensures { result ≡ is_own self.now.more }
    {
        matches!(self.more, More::Own)
    }

    /// Whether the signal may have cells in a map.
    pub fn has_map(&self) -> bool
        ensures { result ≡ has_map self.now.more }
    {
        !matches!(self.more, More::Nothing)
    }
}

/// The heads of the signals that leave one residue when they are divided by the stride. Another signal has no place here, nor has one
/// with a great quotient.
#[derive(Drop)]
pub struct Heads {
    stride: u32,
    residue: u32,
    // a page is as long as it has to be
    pages: Vec<Vec<Head>>,
}

impl Heads {
    /// No signal has a cell.
    pub fn new(alloc: Global, stride: u32, residue: u32) -> Heads
        ensures many { (s : ℕ) → (head_for result s).many ≡ 0 }
        ensures own { (s : ℕ) → is_own (head_for result s).more ≡ false }
    {
        Heads {
            stride,
            residue,
            pages: Vec::new(alloc),
        }
    }

    /// The head of a signal.
    pub fn at(&self, signal: u32) -> Head
        ensures { result ≡ head_for self.now signal }
    {
        head_in(&self.pages, local_number(self.stride, self.residue, signal))
    }

    /// Gives a signal this head, where it has a place here. Returns whether it has.
    pub fn set(&mut self, signal: u32, head: Head) -> Result<bool, OutOfMemory>
        ensures set { IfOk result (λ set. (s : ℕ) → head_for self.new s ≡ (if set && nat_eq signal s then head else head_for self.old s)) }
        ensures told { IfOk result (λ set. set ≡ false → (head_for self.old signal).more ≡ Common) }
        ensures err { OnErr result ((s : ℕ) → head_for self.new s ≡ head_for self.old s) }
    {
        let Some(local) = local_number(self.stride, self.residue, signal) else {
            return Ok(false);
        };
        make_place(&mut self.pages, local)?;
        write_head(&mut self.pages, local, head);
        Ok(true)
    }

    /// Gives a signal that has a list or a map of its own another head.
    pub fn replace(&mut self, signal: u32, head: Head)
        requires { HasHead (head_for self.old signal) }
        ensures { (s : ℕ) → head_for self.new s ≡ (if nat_eq signal s then head else head_for self.old s) }
    {
        let Some(local) = local_number(self.stride, self.residue, signal) else {
            unreachable!()
        };
        write_head(&mut self.pages, local, head);
    }
}

fn local_number(stride: u32, residue: u32, signal: u32) -> Option<u32>
    ensures { result ≡ local_of stride residue signal }
{
    if stride == 0 || signal % stride != residue {
        return None;
    }
    let local = signal / stride;
    if local / PAGE < MOST_PAGES {
        Some(local)
    } else {
        None
    }
}

fn head_in(pages: &[Vec<Head>], local: Option<u32>) -> Head
    ensures { result ≡ head_at pages.now local }
{
    let Some(local) = local else {
        return Head {
            first: 0,
            many: 0,
            more: More::Common,
        };
    };
    if let Some(page) = pages.get((local / PAGE) as usize) {
        if let Some(head) = page.get((local % PAGE) as usize) {
            return *head;
        }
    }
    no_head()
}

// The head of a signal of which nothing is stored.
pub fn no_head() -> Head
    ensures { result ≡ no_head }
{
    Head {
        first: 0,
        many: 0,
        more: More::Nothing,
    }
}

// Makes a place for the head with this number. No head changes.
fn make_place(pages: &mut Vec<Vec<Head>>, local: u32) -> Result<(), OutOfMemory>
    ensures same { (l : ℕ) → head_at pages.new.items (Some l) ≡ head_at pages.old.items (Some l) }
    ensures made { OnOk result (HasPlace pages.new.items local) }
{
    let number = (local / PAGE) as usize;
    while pages.len() <= number {
        let page = Vec::new(*pages.allocator());
        pages.push(page)?;
    }
    fill_page(&mut pages[number])
}

fn fill_page(page: &mut Vec<Head>) -> Result<(), OutOfMemory>
    ensures same { (i : ℕ) → head_on page.new.items i ≡ head_on page.old.items i }
    ensures full { OnOk result (64 ≤ vec_len page.new) }
{
    if page.len() < PAGE as usize {
        page.reserve(PAGE as usize)?;
    }
    while page.len() < PAGE as usize {
        page.push(no_head())?;
    }
    Ok(())
}

fn write_head(pages: &mut Vec<Vec<Head>>, local: u32, head: Head)
    requires { HasPlace pages.old.items local }
    ensures { (l : ℕ) → head_at pages.new.items (Some l) ≡ (if nat_eq local l then head else head_at pages.old.items (Some l)) }
{
    pages[(local / PAGE) as usize][(local % PAGE) as usize] = head;
}
