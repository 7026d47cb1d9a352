//! What follows for every proof. The functions carry these laws as their contracts, and do nothing.

ghost use Rattle.why_proofs.specs.Laws.{JustifiedLinesAreTrue, JustifiedProofsAreTrue, OneProof, VerdictsAreFixed};

/// Every justified cell line states a cell of the circuit, and what a justified proof claims is the value of forward simulation. By
/// induction on the lines: nothing is said of how the proof was made.
pub fn justified_proofs_are_true()
    ensures lines { JustifiedLinesAreTrue }
    ensures claim { JustifiedProofsAreTrue }
{}

/// No text is that of two proofs: its bytes name the claim and every line.
pub fn one_proof()
    ensures { OneProof }
{}

/// For each text just one answer of [`crate::check_proof`] is right. So each of the three comes exactly where its clause says that it
/// may come.
pub fn verdicts_are_fixed()
    ensures { VerdictsAreFixed }
{}
