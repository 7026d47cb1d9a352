//! The base answers that a claimed point hears by itself.

ghost use Rattle.design.specs.PinWalks.{IsPinWalk};
ghost use Rattle.demand_points.specs.inner.Bases.{HearsAllBases};

use design::{Design, PinWalk};

/// Hears base answers, up to the next pin that has none. A pin that reads a time before 0 is looked at too.
pub fn hear_bases(design: &Design, walk: &mut PinWalk)
    requires { IsPinWalk design.now.circuit walk.old }
    ensures { HearsAllBases design.now.circuit walk.old walk.new }
{
    'looks: while !walk.is_done() {
        let heard = match walk.next_source() {
            None => None,
            Some(p) => match design.base(p.signal, p.time) {
                None => return,
                known => known,
            },
        };
        walk.see(design, heard);
    }
}
