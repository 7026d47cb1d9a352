//! What follows for every list of sections. The functions carry these laws as their contracts, and do nothing.
ghost use Rattle.journal_text.specs.Laws.{OneSection, OneJournal};

/// No text begins with the texts of two sections. So [`crate::read_section`] reads the text of a section,
/// whatever follows it, as nothing else.
pub fn one_section()
    ensures { OneSection }
{}

/// No text is that of two journals: the bytes of a journal name its numbers of shards and cells and its
/// sections.
pub fn one_journal()
    ensures { OneJournal }
{}
