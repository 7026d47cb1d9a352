//! A design that questions are asked of, and what a site of it reaches, worked out when it is asked for.

ghost use Rattle.std.specs.Prelude.{◌≡◌, ◌<◌, ◌↔◌, length, IsTrue, IfOk, IfSome};
ghost use Rattle.circuit_meaning.specs.Need.{IsInCone};

use design::{Design, FlagList};
use std::alloc::Global;
use std::marker::Model;
use texts::OutOfMemory;

/// The site that was asked for last: what it reaches, and the design with the links by which that was found.
#[derive(Drop)]
pub struct LastSite {
    linked: Design,
    site: u32,
    /// Whether a signal reads the site, however far back.
    reached: FlagList,
}

impl Model for LastSite {
    ghost use Rattle.design.specs.Joined.{Joined};

    ghost Value = { Joined };

    ghost use Rattle.query_answers.specs.stuck.inner.Sites.{AreReached};

    ghost view = { λ s. s.linked };

    ghost invariant = { λ s. AreReached s.linked.circuit s.site s.reached };
}

/// The design with its links: those that were kept, if they were made before.
fn linked_design(
    alloc: Global,
    design: &Design,
    last: Option<LastSite>,
) -> Result<Design, OutOfMemory>
    requires { IfSome last (λ last. last ≡ design.now) }
    ensures { IfOk result (λ linked. linked ≡ design.now) }
{
    match last {
        Some(last) => Ok(last.linked),
        None => design.with_readers(alloc),
    }
}

/// A design, and what is known of the site that was asked for last.
#[derive(Drop)]
pub struct AskedDesign<'a> {
    design: &'a Design,
    last: Option<LastSite>,
}

impl<'a> Model for AskedDesign<'a> {
    ghost use Rattle.std.specs.Prelude.{◌≡◌, IfSome};
    ghost use Rattle.design.specs.Joined.{Joined};

    ghost Value = { Joined };

    ghost view = { λ a. a.design.now };

    ghost invariant = { λ a. IfSome a.last (λ last. last ≡ a.design.now) };
}

impl<'a> AskedDesign<'a> {
    /// A design, with what was kept of it.
    pub fn new(design: &'a Design, last: Option<LastSite>) -> AskedDesign<'a>
        requires { IfSome last (λ last. last ≡ design.now) }
        ensures { result ≡ design.now }
    {
        AskedDesign { design, last }
    }

    /// The design.
    pub fn design(&self) -> &'a Design
        ensures { result.now ≡ self.now }
    {
        self.design
    }

    /// What is kept for further questions of the same design.
    pub fn into_last(self) -> Option<LastSite>
        ensures { IfSome result (λ last. last ≡ self.entry) }
    {
        self.last
    }

    /// Whether a signal reads the site, if that is the one that was asked for last.
    fn reads_last(&self, site: u32, signal: u32) -> Option<bool>
        requires { signal < length self.now.circuit.drivers }
        ensures { IfSome result (λ reads. IsTrue reads ↔ IsInCone self.now.circuit signal site) }
    {
        match &self.last {
            Some(last) if last.site == site => Some(last.reached.get(signal)),
            _ => None,
        }
    }

    /// Whether a signal reads the site, however far back, or is the site itself. All other signals are free of the site.
    ///
    /// What the site reaches is worked out if it is another one than that of the call before (`Design::reached`), and only looked up
    /// otherwise. The first such call makes the links (`Design::with_readers`).
    pub fn is_reached(&mut self, alloc: Global, site: u32, signal: u32) -> Result<bool, OutOfMemory>
        requires site { site < length self.old.circuit.drivers }
        requires signal { signal < length self.old.circuit.drivers }
        ensures reached { IfOk result (λ reached. IsTrue reached
            ↔ IsInCone self.old.circuit signal site) }
        ensures same { self.new ≡ self.old }
    {
        if let Some(reads) = self.reads_last(site, signal) {
            return Ok(reads);
        }
        let linked = linked_design(alloc, self.design, self.last.take())?;
        let reached = linked.reached(alloc, site)?;
        let reads = reached.get(signal);
        self.last = Some(LastSite {
            linked,
            site,
            reached,
        });
        Ok(reads)
    }
}
