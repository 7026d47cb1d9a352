//! The settings of a stimulus file, by input.

ghost use Rattle.std.specs.Prelude.{◌≡◌, ◌<◌, List, ℕ, [], All, IfOk, map, length, vec_len, replicate};
ghost use Rattle.design.specs.declared.fault.JoinFile.TheVariants as file;
ghost use Rattle.gate_values.specs.declared.Value.TheVariants.{X};
ghost use Rattle.bench_reader.specs.Netlists as netlists;
ghost use Rattle.stimulus_file.specs.Stimulus.{SetRow};
ghost use Rattle.stimulus_file.specs.Named.{named_rows, with_name, HavePlaces};
ghost use Rattle.design.specs.Join as join;
ghost use Rattle.design.specs.inner.Changes.{begins_with_x};
ghost use Rattle.design.specs.inner.Said.{KnowsInputs, HasSets, TakesSet, TakesSets, inputs_of, input_of};

use crate::fault::{JoinCause, JoinFault, JoinFile};
use crate::rows::Row;
use crate::signal_timing::Rows;
use bench_reader::Netlist;
use circuit_meaning::Setting;
use gate_values::Value;
use std::alloc::{AllocError, Global};
use stimulus_file::{NamedSets, NumberedSet};
use texts::Text;

/// The place of the input with this name among all inputs.
fn input_named(netlist: &Netlist, rows: &[Row], name: &Text) -> Result<u32, JoinCause>
    requires { KnowsInputs netlist.now rows.now }
    ensures { result ≡ input_of netlist.now name.now }
{
    match netlist.id_of(name.bytes()) {
        None => Err(JoinCause::UnknownName),
        Some(signal) => match rows[signal as usize] {
            Row::Input { place } => Ok(place),
            Row::Gate { .. } | Row::Flop { .. } => Err(JoinCause::NotInput),
        },
    }
}

/// The places of the inputs with these names.
fn inputs_named(
    alloc: Global,
    netlist: &Netlist,
    rows: &[Row],
    names: &[Text],
) -> Result<Vec<Result<u32, JoinCause>>, AllocError>
    requires { KnowsInputs netlist.now rows.now }
    ensures { IfOk result (λ inputs. inputs.items ≡ map (input_of netlist.now) names.now) }
{
    names
        .iter()
        .map(|name| input_named(netlist, rows, name))
        .collect(alloc)
}

/// This many empty lists.
fn empty_lists(alloc: Global, count: u32) -> Result<Vec<Vec<Setting>>, AllocError>
    ensures { IfOk result (λ lists. map (λ list. list.items) lists.items ≡ replicate count []) }
{
    let mut lists = Vec::with_capacity(alloc, count as usize)?;
    for _list in 0..count {
        lists.push(Vec::new(alloc))?;
    }
    Ok(lists)
}

fn refused(cause: JoinCause, row: &NumberedSet) -> JoinFault
    ensures { result ≡ record { cause = cause; file = file.Stimulus; line = row.now.line } }
{
    JoinFault {
        cause,
        file: JoinFile::Stimulus,
        line: row.line,
    }
}

/// Keeps what a row sets. The inputs are those of the names.
fn take(
    inputs: &[Result<u32, JoinCause>],
    horizon: u32,
    settings: &mut Vec<Vec<Setting>>,
    row: &NumberedSet,
) -> Result<(), JoinFault>
    requires name { row.now.name < length inputs.now }
    requires places { All (λ input. IfOk input (λ place. place < vec_len settings.old))
        inputs.now }
    ensures { (netlist : netlists.Content) (names : List (List ℕ)) (before : List SetRow)
        → inputs.now ≡ map (input_of netlist) names → HasSets netlist before settings.old.items
        → TakesSet netlist horizon before (with_name names row.now) settings.new.items result }
{
    let place = match inputs[row.name as usize] {
        Err(cause) => return Err(refused(cause, row)),
        Ok(place) => place,
    };
    if row.time > horizon {
        return Err(refused(JoinCause::PastHorizon, row));
    }
    settings[place as usize].push(Setting {
        time: row.time,
        value: row.value,
    })?;
    Ok(())
}

/// The settings of each input, in the order of the file.
pub fn read(
    alloc: Global,
    netlist: &Netlist,
    rows: &Rows,
    horizon: u32,
    stimulus: NamedSets<'_>,
) -> Result<Vec<Vec<Setting>>, JoinFault>
    requires rows { KnowsInputs netlist.now rows.now.rows.items }
    requires inputs { rows.now.inputs ≡ length (inputs_of netlist.now) }
    requires names { HavePlaces stimulus.names.now stimulus.sets.now }
    ensures { TakesSets netlist.now horizon
        (named_rows stimulus.entry.names.now stimulus.entry.sets.now) result }
{
    let inputs = inputs_named(alloc, netlist, &rows.rows, stimulus.names)?;
    let mut settings = empty_lists(alloc, rows.inputs)?;
    for row in stimulus.sets {
        take(&inputs, horizon, &mut settings, row)?;
    }
    Ok(settings)
}

/// The settings in the order of time. Of several at one time the first counts.
fn scheduled(mut settings: Vec<Setting>) -> Result<Vec<Setting>, AllocError>
    ensures { IfOk result (λ list. list.items ≡ join.schedule_of settings.items) }
{
    settings.sort_by_key(|setting| setting.time)?;
    settings.dedup_by_key(|setting| setting.time);
    Ok(settings)
}

/// Whether the first of these settings gives the value x.
fn begins_with_x(settings: &[Setting]) -> bool
    ensures { result ≡ begins_with_x settings.now }
{
    match settings {
        [] => false,
        [first, ..] => first.value == Value::X,
    }
}

/// The settings that change the value of an input, which is x before them.
fn changes(mut settings: Vec<Setting>) -> Vec<Setting>
    ensures { result.items ≡ join.changes_from X settings.items }
{
    settings.dedup_by_key(|setting| setting.value);
    if begins_with_x(&settings) {
        settings.remove(0);
    }
    settings
}

/// The settings of each input: the rows that change its value, in the order of time.
pub fn in_order(alloc: Global, rows: Vec<Vec<Setting>>) -> Result<Vec<Vec<Setting>>, AllocError>
    ensures { IfOk result (λ lists. map (λ list. list.items) lists.items
        ≡ map (λ list. join.changes_of list.items) rows.items) }
{
    let mut lists = Vec::with_capacity(alloc, rows.len())?;
    for list in rows {
        lists.push(changes(scheduled(list)?))?;
    }
    Ok(lists)
}
