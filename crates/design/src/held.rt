//! The signals that are held at a value, over the design without them.

ghost use Rattle.std.specs.Prelude.{◌≡◌, ◌∷◌, IfOk, is_none};
ghost use Rattle.std.specs.List.{filter};
ghost use Rattle.design.specs.inner.HeldSignals as values;
ghost use Rattle.design.specs.inner.HeldSignals.{held_settings};

use circuit_meaning::Setting;
use gate_values::Value;
use std::alloc::{AllocError, Global};

/// A signal that is held, and its value.
#[derive(Clone, Copy)]
pub struct HeldSignal {
    pub site: u32,
    pub value: Value,
}

/// The value at which a signal is held, if it is held. Of several entries the first counts.
pub fn value_of(held: &[HeldSignal], signal: u32) -> Option<Value>
    ensures { result ≡ values.value_of held.now signal }
{
    let first = held.iter().find(|held| held.site == signal)?;
    Some(first.value)
}

/// The settings of an input that has a value at all times.
pub fn held_settings(value: Value) -> &'static [Setting]
    ensures { result.now ≡ held_settings value }
{
    match value {
        Value::Zero => &[Setting {
            time: 0,
            value: Value::Zero,
        }],
        Value::One => &[Setting {
            time: 0,
            value: Value::One,
        }],
        Value::X => &[Setting {
            time: 0,
            value: Value::X,
        }],
        Value::Z => &[Setting {
            time: 0,
            value: Value::Z,
        }],
    }
}

/// The list with one more signal, which counts before the others.
pub fn with_first(
    alloc: Global,
    first: HeldSignal,
    others: &[HeldSignal],
) -> Result<Vec<HeldSignal>, AllocError>
    ensures { IfOk result (λ list. list.items ≡ first ∷ others.now) }
{
    let mut list = Vec::new(alloc);
    list.push(first)?;
    list.extend_from_slice(others)?;
    Ok(list)
}

/// Removes the held signals from a list.
pub fn drop_held(held: &[HeldSignal], signals: &mut Vec<u32>)
    ensures { signals.new.items
        ≡ filter (λ signal. is_none (values.value_of held.now signal)) signals.old.items }
{
    signals.retain(|signal| value_of(held, *signal).is_none());
}
