//! The board: the strands that have ended, and what workers that wait look at.

ghost use Rattle.std.specs.Prelude.{◌≡◌, ◌+◌, true, false, Some, None, length, slice_get, IfErr};
ghost use Rattle.plan_machine.specs.Strands.{next};
ghost use Rattle.plan_machine.specs.declared.strand.Next.TheVariants.{Done};
ghost use Rattle.plan_core.specs.InTurn.{task_of};
ghost use Rattle.worker_gate.specs.Ends.{HaveEnded, AreFilled, empty_in};

use demand_points::{BatchName, Strand, Task};

/// The tasks that were handed in, a place for each, and how many places are empty.
#[derive(Drop)]
pub struct Board<B: BatchName> {
    pub tasks: Vec<Task>,
    pub places: Vec<Option<Strand<B>>>,
    pub empty: usize,
    pub no_memory: bool,
    /// How many strands were put into the queue.
    pub moves: u64,
    /// How many workers wait.
    pub sleeping: u32,
    ghost as_many_places: { length places.items ≡ length tasks.items },
    ghost empties: { empty ≡ empty_in places.items },
    ghost ended: { HaveEnded places.items tasks.items },
}

impl<B: BatchName> Board<B> {
    // Whether the task of the strand's number is that of the strand.
    fn has_task_of(&self, strand: &Strand<B>) -> bool
        ensures { result ≡ true → slice_get self.now.tasks.items strand.now.number ≡ Some
            (task_of strand.now) }
    {
        let n = strand.number() as usize;
        n < self.tasks.len() && self.tasks[n] == strand.task()
    }

    // Whether the strand may stand at its place.
    fn fits(&self, strand: &Strand<B>) -> bool
        ensures task { result ≡ true → slice_get self.now.tasks.items strand.now.number ≡ Some
            (task_of strand.now) }
        ensures spent { result ≡ true → strand.now.strand.spent ≡ true
            → strand.now.strand.charged ≡ strand.now.strand.budget }
        ensures place { result ≡ true → slice_get self.now.places.items strand.now.number ≡ Some
            None }
    {
        if !self.has_task_of(strand) || gave_up_early(strand) {
            return false;
        }
        self.places[strand.number() as usize].is_none()
    }

    /// Takes in a strand that has ended, where it may stand at its place.
    pub fn try_put(&mut self, strand: Strand<B>) -> Result<(), Strand<B>>
        requires { next strand.strand ≡ Done }
        ensures { IfErr result (λ back. back ≡ strand) }
    {
        if !self.fits(&strand) {
            return Err(strand);
        }
        let n = strand.number() as usize;
        self.places[n] = Some(strand);
        self.empty -= 1;
        Ok(())
    }

    /// Whether each place is filled.
    pub fn is_full(&self) -> bool
        ensures { result ≡ true → AreFilled self.now.places.items }
    {
        self.empty == 0
    }
}

// Whether the strand was refused a point below its budget.
fn gave_up_early<B: BatchName>(strand: &Strand<B>) -> bool
    ensures { result ≡ false → strand.now.strand.spent ≡ true
        → strand.now.strand.charged ≡ strand.now.strand.budget }
{
    strand.is_spent() && strand.charge() != strand.task().budget
}

/// How often the strand has claimed and filled a point.
pub fn booked_of<B: BatchName>(strand: &Strand<B>) -> u64
    ensures { result ≡ strand.now.strand.charged + strand.now.strand.filled }
{
    strand.charge() as u64 + strand.fills() as u64
}
