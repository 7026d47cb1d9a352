//! The design of a batch.

ghost use Rattle.std.specs.Prelude.{◌≡◌, ⊤};

use crate::names::BatchName;
use design::Design;
use std::alloc::AllocError;
use std::marker::PhantomData;

/// The design of the batch that B names: a reference, whose type says that its circuit is that of the batch.
pub struct BatchDesign<'a, B: BatchName> {
    pub design: &'a Design,
    of: PhantomData<B>,
    pub ghost circuit: { design.now.circuit ≡ B.batch.circuit },
}

impl<'a, B: BatchName> BatchDesign<'a, B> {
    /// A design whose circuit is that of the batch.
    pub fn new(design: &'a Design) -> BatchDesign<'a, B>
        requires { design.now.circuit ≡ B.batch.circuit }
        ensures { result.design.now ≡ design.now }
    {
        BatchDesign {
            design,
            of: PhantomData,
        }
    }

    /// The design.
    pub fn design(self) -> &'a Design
        ensures same { result.now ≡ self.entry.design.now }
        ensures circuit { result.now.circuit ≡ B.batch.circuit }
    {
        self.design
    }
}

impl<'a, B: BatchName> Clone for BatchDesign<'a, B> {
    ghost is_clone = { λ old copy. copy ≡ old };

    ghost is_infallible = { λ _. ⊤ };

    fn clone(&self) -> Result<BatchDesign<'a, B>, AllocError> {
        Ok(*self)
    }
}

impl<'a, B: BatchName> Copy for BatchDesign<'a, B> {}
