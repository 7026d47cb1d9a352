//! The words that the process was given.

ghost use Rattle.std.specs.Prelude.{◌≡◌, [], drop, IfOk, IfErr, IsErr, IsOkAnd};
ghost use Rattle.std.specs.IoError.{error_kind};
ghost use Rattle.std.specs.declared.io.ErrorKind.TheVariants.{InvalidData};

use std::alloc::Global;
use std::io;
use texts::OutOfMemory;

/// The words that std gives, without the first, which is the program's name. If a word is not valid text, the list is empty: no
/// program accepts an empty list, so it reports a wrong form.
pub fn words_after_name(
    alloc: Global,
    given: io::Result<Vec<String>>,
) -> Result<Vec<String>, OutOfMemory>
    ensures words { IfOk given (λ all. IsOkAnd result (λ words. words.items ≡ drop 1 all.items)) }
    ensures no_text { IfErr given (λ error. error_kind error ≡ InvalidData
        → IsOkAnd result (λ words. words.items ≡ [])) }
    ensures fault { IfErr given (λ error. (error_kind error ≡ InvalidData → ⊥) → IsErr result) }
{
    match given {
        Ok(mut words) => {
            if !words.is_empty() {
                let _name = words.remove(0);
            }
            Ok(words)
        }
        Err(error) if error.kind() == io::ErrorKind::InvalidData => Ok(Vec::new(alloc)),
        Err(_) => Err(OutOfMemory),
    }
}
