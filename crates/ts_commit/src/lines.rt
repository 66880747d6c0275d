//! The object of a `.vac`: the names of merged fragments, a line for each.
ghost use Rattle.std.specs.Prelude.{◌≡◌, ◌++◌, ◌<◌, ◌≤◌, ◌^◌, [], List, ℕ, length, codes, count_by, Some, IfOk, IfSome, OnOk};
ghost use Rattle.std.specs.List.{flat_map, position};
ghost use Rattle.ts_base.specs.declared.keys.FragKey.{FragKey};
ghost use Rattle.ts_base.specs.Names.{IsSpelled};
ghost use Rattle.ts_base.specs.Spelling.{name_text, FitsFrag};
ghost use Rattle.ts_wire.specs.Envelope.{IsCut};
ghost use Rattle.ts_wire.specs.Place.{items_at};
ghost use Rattle.ts_wire.specs.Reading.{Reads, ReadsOr, DecodesOr, IsRead, IsDamagedAt};
ghost use Rattle.ts_commit.specs.Vacs.{line_bytes, vac_object, follows, AreNames, IsFragText, frag_in, is_feed, behind_of, merged_in, line_at, lines_in, names_of};

use arrayvec::ArrayString;
use std::alloc::Global;
use ts_base::{ByteList, CommitKind, FragKey, FragList, Name, OutOfMemory};
use ts_wire::{Cursor, Damaged, Kind, ReadFault, Scribe, unwrap_body};

// The most bytes that the name of a fragment has: two timestamps of 20 digits, an identifier of 32,
// a version of 3, and what stands between them.
const LONGEST: usize = 80;

/// The object of a `.vac` that names these fragments: an envelope, and then a line for each fragment,
/// its name and a line feed.
#[tactic(auto, unfolding(crate::specs::Vacs::vac_object))]
pub fn encode_vac(alloc: Global, names: &FragList) -> Result<ByteList, OutOfMemory>
    ensures { IfOk result (λ object. object ≡ vac_object names.now) }
{
    let mut scribe = Scribe::new(alloc);
    write_lines(&mut scribe, names.as_slice())?;
    scribe.into_object(Kind::Vac)
}

fn write_lines(scribe: &mut Scribe, names: &[FragKey]) -> Result<(), OutOfMemory>
    ensures { OnOk result (scribe.new ≡ scribe.old ++ flat_map line_bytes names.now) }
{
    for name in names {
        write_line(scribe, name)?;
    }
    Ok(())
}

#[tactic(auto, unfolding(crate::specs::Vacs::line_bytes))]
fn write_line(scribe: &mut Scribe, name: &FragKey) -> Result<(), OutOfMemory>
    ensures { OnOk result (scribe.new ≡ scribe.old ++ line_bytes name.now) }
{
    scribe.bytes(name.spell().text().as_bytes())?;
    scribe.bytes(b"\n")
}

/// The fragments that the object of a `.vac` names.
///
/// There is one line or more, and the names ascend. The answer is a list of names exactly where the
/// object is one that spells them. Else the offset is that of the first broken field, where a line is
/// one field: a line is broken at its start where it spells no name, where its name is not above the
/// one before, or where it has no line feed.
pub fn decode_vac(alloc: Global, object: &[u8]) -> Result<FragList, ReadFault>
    ensures exact { DecodesOr (λ names. names) (names_of object.now) result }
    ensures found { IfOk result (λ names. AreNames names × (object.now ≡ vac_object names)) }
    ensures only { (names : List FragKey) → AreNames names → object.now ≡ vac_object names → IsRead (λ found. found) names result }
    ensures cut { (names : List FragKey) → length (flat_map line_bytes names) < 2 ^ 64 → IsCut 14 (vac_object names) object.now → IsDamagedAt 6 result }
{
    read_names(alloc, object)
}

#[tactic(auto, unfolding(crate::specs::Vacs::names_of))]
fn read_names(alloc: Global, object: &[u8]) -> Result<FragList, ReadFault>
    ensures { DecodesOr (λ names. names) (names_of object.now) result }
{
    let body = unwrap_body(Kind::Vac, object)?;
    let mut cursor = Cursor::new(body, 14);
    let names = read_lines(alloc, count_lines(body), &mut cursor)?;
    cursor.end()?;
    Ok(names)
}

// How many lines there are to be.
#[tactic(auto, using(crate::proofs::LineLaws::feeds))]
fn count_lines(body: &[u8]) -> usize
    ensures { result ≡ lines_in body.now }
{
    let feeds = count_feeds(body);
    if feeds == 0 { 1 } else { feeds }
}

fn count_feeds(body: &[u8]) -> usize
    ensures { result ≡ count_by is_feed body.now }
{
    body.iter().filter(|byte| **byte == b'\n').count()
}

#[tactic(auto, using(ts_wire::proofs::Loop::items_loop))]
fn read_lines(alloc: Global, count: usize, cursor: &mut Cursor) -> Result<FragList, ReadFault>
    ensures { ReadsOr (λ names. names) (items_at line_at count []) cursor.old cursor.new result }
{
    let mut names = FragList::new(alloc);
    for place in 0..count {
        let name = read_line(names.as_slice(), cursor)?;
        names.push(name)?;
    }
    Ok(names)
}

#[tactic(auto, unfolding(crate::specs::Vacs::line_at))]
fn read_line(front: &[FragKey], cursor: &mut Cursor) -> Result<FragKey, Damaged>
    ensures { Reads (λ name. name) (line_at front.now) cursor.old cursor.new result }
{
    let at = cursor.at();
    let rest = cursor.rest();
    match end_of_line(rest) {
        None => Err(Damaged { at }),
        Some(count) => match name_behind(front, &rest[..count]) {
            None => Err(Damaged { at }),
            Some(name) => {
                cursor.bytes(count as u64 + 1)?;
                Ok(name)
            }
        },
    }
}

// The place of the first line feed.
fn end_of_line(rest: &[u8]) -> Option<usize>
    ensures place { result ≡ position is_feed rest.now }
    ensures within { IfSome result (λ count. count < length rest.now) }
{
    rest.iter().position(|byte| *byte == b'\n')
}

// The fragment whose spelling the text is, if it may stand behind the others.
fn name_behind(front: &[FragKey], text: &[u8]) -> Option<FragKey>
    ensures { result ≡ behind_of front.now (frag_in text.now) }
{
    match frag_in(text) {
        Some(name) if follows(front, name) => Some(name),
        _ => None,
    }
}

// Whether the fragment is above the last of those before it.
fn follows(front: &[FragKey], name: FragKey) -> bool
    ensures { result ≡ follows front.now name }
{
    front.is_empty() || front[front.len() - 1] < name
}

// The fragment whose spelling the text is.
fn frag_in(text: &[u8]) -> Option<FragKey>
    ensures { result ≡ frag_in text.now }
{
    let name = commit_in(text);
    merged_in(name)
}

// The fragment of a `.vac`.
fn merged_in(name: Option<Name>) -> Option<FragKey>
    ensures is { result ≡ merged_in name }
    ensures fits { IfSome result FitsFrag }
{
    match name {
        Some(Name::Commit(frag, CommitKind::Vac)) => Some(frag),
        _ => None,
    }
}

// The name of a `.vac` with this text in place of its fragment's name, if there is one.
fn commit_in(text: &[u8]) -> Option<Name>
    ensures spells { IfSome result (λ name. IsSpelled name × ((codes "__commits/" ++ text.now) ++ codes ".vac" ≡ name_text name)) }
    ensures every { (f : FragKey) → IsFragText f text.now → result ≡ Some (Name.Commit f CommitKind.Vac) }
{
    match str::from_utf8(text) {
        Ok(text) => commit_with(text),
        Err(_) => None,
    }
}

// The same of a text.
#[tactic(auto, using(crate::proofs::FragTexts::name_has_room, crate::proofs::FragTexts::commit_text))]
fn commit_with(text: &str) -> Option<Name>
    ensures spells { IfSome result (λ name. IsSpelled name × ((codes "__commits/" ++ text.now) ++ codes ".vac" ≡ name_text name)) }
    ensures every { (f : FragKey) → IsFragText f text.now → result ≡ Some (Name.Commit f CommitKind.Vac) }
{
    if text.len() > LONGEST {
        return None;
    }
    let mut name = ArrayString::<128>::new();
    name.push_str("__commits/");
    name.push_str(text);
    name.push_str(".vac");
    Name::parse(name.as_str())
}
