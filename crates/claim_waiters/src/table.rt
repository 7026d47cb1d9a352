ghost use Rattle.std.specs.Prelude.{◌≡◌, ◌↔◌, ◌++◌, ◌∷◌, length, IsTrue, All, IfErr, IfOk, IfSome, IsSome, None, OnErr, OnOk, Some, []};
ghost use Rattle.std.specs.Bool.{OnFalse, OnTrue};
ghost use Rattle.claim_waiters.specs.Claims.{claim_at, first_of, holder_in, waiters_of, with_claim, with_waiter, without_claim, IsAtMost, IsInOrder};

use crate::holders::Holders;
use crate::waiter::Waiter;
use std::alloc::Global;
use std::collections::BTreeMap;
use std::marker::Model;
use texts::OutOfMemory;
use valid_intervals::Point;

/// The claims, by their points.
#[derive(Drop)]
pub struct ClaimTable<W: Waiter> {
    // The query that has claimed each point.
    holders: Holders,
    // The waiters of the claimed points for which some wait. A room is empty where there was no memory for the first.
    rooms: BTreeMap<Point, W::Room>,
    alloc: Global,
}

impl<W: Waiter> Model for ClaimTable<W> {
    ghost use Rattle.claim_waiters.specs.Claims.{Claims};

    ghost Value = { Claims W };

    ghost use Rattle.claim_waiters.specs.inner.View.{claims_of, IsClaimTable};

    ghost view = { λ t. claims_of W.items t.holders t.rooms.entries };

    ghost invariant = { λ t. IsClaimTable t.holders t.rooms.entries };
}

impl<W: Waiter> ClaimTable<W> {
    /// A table without claims.
    pub fn new(alloc: Global) -> ClaimTable<W>
        ensures { result ≡ [] }
    {
        ClaimTable {
            holders: Holders::new(alloc),
            rooms: BTreeMap::new(alloc),
            alloc,
        }
    }

    /// The law of every table: its points are in order, so none is claimed twice. Who ends a claim or adds a waiter needs it, to say what
    /// is left at each point.
    pub fn facts(&self)
        ensures { IsInOrder self.now }
    {
        // A proof knows the invariant of a value whose field the body reads.
        let _ = &self.holders;
    }

    /// The number of claimed points.
    pub fn len(&self) -> usize
        ensures { result ≡ length self.now }
    {
        self.holders.len()
    }

    /// Whether no point is claimed.
    pub fn is_empty(&self) -> bool
        ensures { IsTrue result ↔ (self.now ≡ []) }
    {
        self.holders.len() == 0
    }

    /// Claims a point for a query, if the point is free, and says whether it was. A new claim has no waiter yet.
    pub fn claim(&mut self, q: u32, p: Point) -> Result<bool, OutOfMemory>
        ensures free { IfOk result (λ free. IsTrue free ↔ (claim_at self.old p ≡ None)) }
        ensures claimed { IfOk result (λ free. OnTrue free (self.new ≡ with_claim self.old q p)) }
        ensures taken { IfOk result (λ free. OnFalse free (self.new ≡ self.old)) }
        ensures err_free { OnErr result (claim_at self.old p ≡ None) }
        ensures err { OnErr result (self.new ≡ self.old) }
    {
        self.holders.claim(self.alloc, q, p)
    }

    /// The query that has claimed the point.
    pub fn holder(&self, p: Point) -> Option<u32>
        ensures { result ≡ holder_in self.now p }
    {
        self.holders.get(p)
    }

    /// Appends a waiter at a claimed point. On failure hands it back.
    pub fn wait(&mut self, p: Point, waiter: W) -> Result<(), (W, OutOfMemory)>
        requires { IsSome (claim_at self.old p) }
        ensures ok { OnOk result (self.new ≡ with_waiter self.old p waiter) }
        ensures err { OnErr result (self.new ≡ self.old) }
        ensures back { IfErr result (λ refused. refused.0 ≡ waiter) }
    {
        let Ok(room) = self.rooms.entry(p) else {
            return Err((waiter, OutOfMemory));
        };
        W::wait(room.or_insert(W::none(self.alloc)), waiter)
    }

    /// Ends a claim, and returns its waiters in the order of their arrival.
    pub fn take(&mut self, p: Point) -> W::Room
        requires { IsSome (claim_at self.old p) }
        ensures waiters { waiters_of self.old p ≡ Some (W.items result) }
        ensures rest { self.new ≡ without_claim self.old p }
    {
        self.holders.remove(p);
        match self.rooms.remove(&p) {
            Some(room) => room,
            None => W::none(self.alloc),
        }
    }

    /// The first claimed point, with its query.
    pub fn first(&self) -> Option<(u32, Point)>
        ensures first { result ≡ first_of self.now }
        ensures least { IfSome result (λ first. All (λ claimed. IsAtMost first.1 claimed.0)
            self.now) }
    {
        let (p, q) = self.holders.first()?;
        Some((q, p))
    }
}
