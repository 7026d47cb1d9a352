ghost use Rattle.std.specs.Prelude.{◌≡◌, [], ◌∷◌, ◌++◌, OnOk, OnErr, IfErr};

use std::alloc::Global;
use texts::OutOfMemory;

/// What waits at a claimed point, and the room that a claim has for it.
pub trait Waiter: Drop + Sized {
    ghost use Rattle.std.specs.Prelude.{List};

    /// A list of waiters.
    type Room: Drop;

    ghost items: { Self.Room → List Self };

    /// A room without waiters. It takes no memory.
    fn none(alloc: Global) -> Self::Room
        ensures { items result ≡ [] };

    /// Appends a waiter. If there is no memory, the room is as it was, and the waiter is handed back.
    fn wait(room: &mut Self::Room, waiter: Self) -> Result<(), (Self, OutOfMemory)>
        ensures ok { OnOk result (items room.new ≡ items room.old ++ waiter ∷ []) }
        ensures err { OnErr result (items room.new ≡ items room.old) }
        ensures back { IfErr result (λ refused. refused.0 ≡ waiter) };
}
