//! Laws of all words. The functions do nothing; their contracts are the laws.

ghost use Rattle.command_words.specs.Laws.{AnyOrder, OneWordOrTwo};

/// The value of an option is the next word, or follows `=`.
pub fn one_word_or_two()
    ensures { OneWordOrTwo }
{}

/// An option and a name next to each other may be swapped.
pub fn any_order()
    ensures { AnyOrder }
{}
