//! A list of flags.

ghost use Rattle.std.specs.Prelude.{◌≡◌, ◌<◌, length, slice_get, Some};

use std::marker::Model;

/// A flag for each signal, by its number. The model is the list of flags.
#[derive(Drop)]
pub struct FlagList {
    flags: Vec<bool>,
}

impl Model for FlagList {
    ghost use Rattle.std.specs.Prelude.{List, Bool};

    ghost Value = { List Bool };

    ghost view = { λ f. f.flags.items };
}

impl FlagList {
    pub fn from_vec(flags: Vec<bool>) -> FlagList
        ensures { result ≡ flags.items }
    {
        FlagList { flags }
    }

    pub fn as_slice(&self) -> &[bool]
        ensures { result.now ≡ self.now }
    {
        &self.flags
    }

    /// The flag of a signal.
    pub fn get(&self, signal: u32) -> bool
        requires { signal < length self.now }
        ensures { slice_get self.now signal ≡ Some result }
    {
        self.flags[signal as usize]
    }
}
