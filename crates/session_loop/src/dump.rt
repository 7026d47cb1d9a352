//! A dump of the last batch's waves is served.

ghost use Rattle.std.specs.Prelude.{◌≡◌, ◌+◌, ◌++◌, ◌<◌, ◌∷◌, [], List, IsTrue, length, IfErr, IfOk, OnOk, None};
ghost use Rattle.std.specs.List.{list_any};
ghost use Rattle.std.specs.Str.{bytes_eq};
ghost use Rattle.texts.specs.Made.{Made};
ghost use Rattle.texts.specs.Text.{is_name};
ghost use Rattle.query_lines.specs.declared.unit.Unit.TheVariants as kinds;
ghost use Rattle.reply_lines.specs.Replies.{vcd_line};
ghost use Rattle.reply_lines.specs.declared.reply.VcdReply.TheVariants as replies;
ghost use Rattle.vcd_answers.specs.Dumps.{vcd_of};
ghost use Rattle.session_meaning.specs.Dumps.{wires_of};
ghost use Rattle.unit_answers.specs.Dumps.{AreReplied};
ghost use Rattle.session_loop.specs.Outside.{seen};
ghost use Rattle.session_loop.specs.Serving.{memo_of};
ghost use Rattle.session_loop.specs.inner.Desks.{IsReady, refused_reply};
ghost use Rattle.session_loop.specs.inner.Growing.{Adds, IsDumpPart};
ghost use Rattle.session_loop.specs.inner.Pieces.{Replies};
ghost use Rattle.session_loop.specs.inner.Serving.{ServesInPlace, ServesUnits};
ghost use Rattle.session_loop.specs.inner.Telling.{TellsDump};
ghost use Rattle.session_loop.specs.inner.Outside.{DumpChanges};

use crate::desk::{Desk, Dumps, LastBatch};
use crate::section::write_reply;
use crate::service::Service;
use crate::stop::{DumpStop, RepliesStop, UnitStop};
use backsim_io::{Files, Sink, write_file};
use reply_lines::{VcdReply, dump_text};
use std::alloc::Global;
use texts::{OutOfMemory, Text};
use unit_answers::dump_waves;

/// The most dumps that a session makes.
const MOST_DUMPS: usize = 3;

/// How each dump begins.
const HEAD: &[u8] = b"$";

/// Whether one of these names is that of the file.
fn is_among(names: &[Text], file: &Text) -> bool
    ensures { result ≡ list_any (bytes_eq file.now) names.now }
{
    names.iter().any(|name| file == name)
}

/// Why no dump is made under this name, if none is.
fn refusal_of(dumps: &Dumps, file: &Text) -> Option<VcdReply>
    ensures { result ≡ refused_reply dumps.now file.now }
{
    if is_among(&dumps.own, file) || is_among(&dumps.made, file) {
        Some(VcdReply::Taken)
    } else if dumps.last.is_none() {
        Some(VcdReply::NoBatch)
    } else if dumps.made.len() >= MOST_DUMPS {
        Some(VcdReply::Full)
    } else {
        None
    }
}

/// Creates the file of a dump, also in the place of another one, writes its text, and finishes it.
fn write_dump<F: Files>(name: &str, text: &[u8], files: &mut F) -> Result<(), DumpStop>
    requires room { (F.state files.old).created < 4 }
    requires journal { 0 < (F.state files.old).created }
    ensures written { OnOk result (Adds (F.made files.old) (F.made files.new)
        (F.state files.old).created (record { name = name.now; bytes = text.now } ∷ [])) }
    ensures begun { IfErr result (λ stop. (more : List Made) × IsDumpPart name.now text.now more
        × Adds (F.made files.old) (F.made files.new) (F.state files.old).created more
        × ((F.state files.new).created ≡ (F.state files.old).created + length more)) }
    ensures state { DumpChanges (F.state files.old) (F.state files.new) result }
{
    let Ok(slot) = files.create(name, HEAD) else {
        return Err(DumpStop::Unmade);
    };
    if write_file(files, slot, text).is_err() {
        return Err(DumpStop::Unwritten);
    }
    if files.finish(slot).is_err() {
        return Err(DumpStop::Unfinished);
    }
    Ok(())
}

/// Tells why no dump is made.
fn refuse_dump<S: Sink>(
    alloc: Global,
    file: &Text,
    reply: VcdReply,
    out: &mut S,
) -> Result<(), RepliesStop>
    ensures { Replies (vcd_line file.now reply) result
        (S.faults out.old) (S.written out.old) (S.faults out.new) (S.written out.new) }
{
    let text = dump_text(alloc, file, reply)?;
    write_reply(&text, out)
}

/// Adds a copy of a name.
fn push_copy(alloc: Global, name: &Text, names: &mut Vec<Text>) -> Result<(), OutOfMemory>
    ensures { OnOk result (names.new.items ≡ names.old.items ++ name.now ∷ []) }
{
    names.push(Text::from_bytes(alloc, name.bytes())?)?;
    Ok(())
}

/// A dump as texts: that of its file, and that of the reply.
#[derive(Drop)]
struct DumpTexts {
    file: Vec<u8>,
    reply: Vec<u8>,
}

/// Makes the texts of a dump of this batch's waves under this name.
fn texts_of(service: &Service<'_>, last: &LastBatch, file: &Text) -> Result<DumpTexts, OutOfMemory>
    requires shown { AreReplied service.now.design.now last.now.items last.now.replies.items }
    ensures file { IfOk result (λ dump. dump.file.items
        ≡ vcd_of (wires_of service.now.design.now last.now.items last.now.replies.items)) }
    ensures reply { IfOk result (λ dump. dump.reply.items ≡ vcd_line file.now
        (replies.Made (length (wires_of service.now.design.now last.now.items last.now.replies.items)))) }
{
    let dump = dump_waves(
        service.alloc,
        service.design,
        last.items.as_slice(),
        &last.replies,
    )?;
    let reply = dump_text(service.alloc, file, VcdReply::Made(dump.wires))?;
    Ok(DumpTexts {
        file: dump.text,
        reply,
    })
}

/// Writes the file of a dump, which is finished, and then the reply.
fn tell_dump<F: Files, S: Sink>(
    file: &Text,
    dump: &DumpTexts,
    files: &mut F,
    out: &mut S,
) -> Result<(), UnitStop>
    requires named { IsTrue (is_name file.now) }
    requires room { (F.state files.old).created < 4 }
    requires journal { 0 < (F.state files.old).created }
    ensures { TellsDump file.now dump.now.file.items dump.now.reply.items result
        (seen (F.state files.old) (F.made files.old) (S.faults out.old) (S.written out.old))
        (seen (F.state files.new) (F.made files.new) (S.faults out.new) (S.written out.new)) }
{
    let Ok(name) = str::from_utf8(file.bytes()) else {
        unreachable!()
    };
    write_dump(name, &dump.file, files)?;
    write_reply(&dump.reply, out)?;
    Ok(())
}

/// Makes a dump of the last batch's waves under a name that is free, and is taken from then on.
fn make_dump<F: Files, S: Sink>(
    service: &Service<'_>,
    file: &Text,
    desk: &mut Desk,
    files: &mut F,
    out: &mut S,
) -> Result<(), UnitStop>
    requires named { IsTrue (is_name file.now) }
    requires free { refused_reply desk.old.dumps file.now ≡ None }
    requires ready { IsReady (memo_of service.now) desk.old (F.state files.old) }
    ensures { ServesInPlace service.now desk.old desk.new (kinds.Vcd file.now ∷ []) result
        (seen (F.state files.old) (F.made files.old) (S.faults out.old) (S.written out.old))
        (seen (F.state files.new) (F.made files.new) (S.faults out.new) (S.written out.new)) }
{
    let Some(last) = &desk.dumps.last else {
        unreachable!()
    };
    let dump = texts_of(service, last, file)?;
    push_copy(service.alloc, file, &mut desk.dumps.made)?;
    tell_dump(file, &dump, files, out)
}

/// Makes the dump that a line asks for, or tells why there is none.
fn answer_vcd<F: Files, S: Sink>(
    service: &Service<'_>,
    file: &Text,
    desk: &mut Desk,
    files: &mut F,
    out: &mut S,
) -> Result<(), UnitStop>
    requires named { IsTrue (is_name file.now) }
    requires ready { IsReady (memo_of service.now) desk.old (F.state files.old) }
    ensures { ServesInPlace service.now desk.old desk.new (kinds.Vcd file.now ∷ []) result
        (seen (F.state files.old) (F.made files.old) (S.faults out.old) (S.written out.old))
        (seen (F.state files.new) (F.made files.new) (S.faults out.new) (S.written out.new)) }
{
    match refusal_of(&desk.dumps, file) {
        Some(reply) => {
            refuse_dump(service.alloc, file, reply, out)?;
            Ok(())
        }
        None => make_dump(service, file, desk, files, out),
    }
}

/// Serves a line that asks for a dump of the last batch's waves: the file, which is written and finished, and then its reply; or the
/// reply that says why there is none.
pub fn serve_vcd<F: Files, S: Sink>(
    service: &Service<'_>,
    file: Text,
    desk: Desk,
    files: &mut F,
    out: &mut S,
) -> Result<Desk, UnitStop>
    requires named { IsTrue (is_name file) }
    requires ready { IsReady (memo_of service.now) desk (F.state files.old) }
    ensures { ServesUnits service.now desk (kinds.Vcd file ∷ []) result
        (seen (F.state files.old) (F.made files.old) (S.faults out.old) (S.written out.old))
        (seen (F.state files.new) (F.made files.new) (S.faults out.new) (S.written out.new)) }
{
    let mut desk = desk;
    answer_vcd(service, &file, &mut desk, files, out)?;
    Ok(desk)
}
