//! What a consolidation puts: the parts of the fragment that its sources are merged into, its `.vac`,
//! and the `.wrt` by which it is committed.
ghost use Rattle.std.specs.Prelude.{◌≡◌, ◌<◌, ◌^◌, ◌++◌, ◌∷◌, [], true, false, None, All, IfOk, IfSome, MatchResult};
ghost use Rattle.ts_base.specs.Names.{IsSpelledFrag, IsSpelledPart, wrt_of};
ghost use Rattle.ts_model.specs.declared.answers.Outcome.TheVariants as outcome;
ghost use Rattle.ts_model.specs.States.{can_be_named, frags_of, merge_objects, part_objects, piece_merged, puts_merged, putting, vac_of};
ghost use Rattle.ts_consolidate.specs.Merges.{AreGot, HasSources, HaveNames, IsMergeState, merges_left};

use crate::fetching::Sources;
use crate::merging::{Unmerged, merge_pieces};
use crate::puts::put;
use std::alloc::Global;
use ts_actor::{Pieces, heads_of};
use ts_base::{ByteList, CommitKind, FragKey, FragList, Name, OutOfMemory, PartBytes, PartList};
use ts_batch::BatchesList;
use ts_commit::{encode_vac, names_merged};
use ts_model::{Job, NewObject, NewObjectList, Opened, Outcome, State, Survey};
use ts_piece::BatchPiece;
use ts_schema::{Frame, Schema};
use ts_store::SharedBytes;

/// A consolidation puts what its sources are merged into, of which it has got all versions. Sources
/// that have too many origins or versions together are not merged.
pub(crate) fn put_merged<P: Pieces>(
    alloc: Global,
    job: &Job,
    merged: Sources,
    got: BatchesList,
) -> Result<State<P::Fetch>, OutOfMemory>
    requires has { HasSources P.codec merged.survey merged.schema merged.opened }
    requires got { AreGot P.codec merged.survey.frame merged.schema.attrs merged.opened got }
    ensures is { IfOk result (λ state. state ≡ puts_merged P.codec job.now merged.survey merged.schema got merged.opened) }
    ensures may { IfOk result (IsMergeState P.codec) }
    ensures few_calls { IfOk result (λ state. merges_left P.left state < 2 ^ 64) }
{
    match first_and_others(merged.opened.as_slice()) {
        Some((first, others)) => {
            put_sources::<P>(
                alloc,
                job,
                &merged.survey,
                &merged.schema,
                first,
                others,
                got,
            )
        }
        None => Ok(State::Over(Outcome::OutOfMemory)),
    }
}

// The first source, and those behind it.
fn first_and_others(opened: &[Opened]) -> Option<(&Opened, &[Opened])>
    ensures some { IfSome result (λ parts. opened.now ≡ parts.0.now ∷ parts.1.now) }
    ensures none { result ≡ None → opened.now ≡ [] }
{
    match opened {
        [first, others @ ..] => Some((first, others)),
        _ => None,
    }
}

// A consolidation puts what a first source and others are merged into.
fn put_sources<P: Pieces>(
    alloc: Global,
    job: &Job,
    survey: &Survey,
    schema: &Schema,
    first: &Opened,
    others: &[Opened],
    got: BatchesList,
) -> Result<State<P::Fetch>, OutOfMemory>
    requires has { HasSources P.codec survey.now schema.now (first.now ∷ others.now) }
    requires got { AreGot P.codec survey.now.frame schema.now.attrs (first.now ∷ others.now) got }
    ensures is { IfOk result (λ state. state ≡ puts_merged P.codec job.now survey.now schema.now got (first.now ∷ others.now)) }
    ensures may { IfOk result (IsMergeState P.codec) }
    ensures few_calls { IfOk result (λ state. merges_left P.left state < 2 ^ 64) }
{
    let Ok(more) = u32::try_from(others.len()) else {
        return Err(OutOfMemory);
    };
    if more == u32::MAX {
        return Err(OutOfMemory);
    }
    let frags = frags_of(alloc, first, others)?;
    let names = names_merged(alloc, &survey.vacs, &frags)?;
    match merge_sources::<P>(alloc, job, survey, schema, first, others, got) {
        Ok(piece) => { put_piece::<P>(alloc, survey.frame.get(), schema, &names, more + 1, &piece) }
        Err(Unmerged::TooMany) => Ok(State::Over(Outcome::OutOfMemory)),
        Err(Unmerged::OutOfMemory) => Err(OutOfMemory),
    }
}

// What a first source and others are merged into: a piece that can be written.
fn merge_sources<P: Pieces>(
    alloc: Global,
    job: &Job,
    survey: &Survey,
    _schema: &Schema,
    first: &Opened,
    others: &[Opened],
    got: BatchesList,
) -> Result<BatchPiece, Unmerged>
    requires has { HasSources P.codec survey.now _schema.now (first.now ∷ others.now) }
    requires got { AreGot P.codec survey.now.frame _schema.now.attrs (first.now ∷ others.now) got }
    ensures is { IfOk result (λ piece. piece ≡ piece_merged job.now survey.now.frame first.now others.now got) }
    ensures fits { IfOk result (P.codec.writable survey.now.frame _schema.now.attrs) }
    ensures spelled { IfOk result (λ piece. IsSpelledFrag piece.head.frag) }
    ensures named { MatchResult result (λ piece. can_be_named piece ≡ true) (λ cause. cause ≡ Unmerged.TooMany → can_be_named (piece_merged job.now survey.now.frame first.now others.now got) ≡ false) }
{
    let frame = survey.frame.get();
    let heads = heads_of(alloc, others)?;
    merge_pieces(alloc, frame, job.id, &first.head, heads.as_slice(), got)
}

// A consolidation of so many fragments puts the piece, whose `.vac` is to have these names.
fn put_piece<P: Pieces>(
    alloc: Global,
    frame: &Frame,
    schema: &Schema,
    names: &FragList,
    count: u32,
    piece: &BatchPiece,
) -> Result<State<P::Fetch>, OutOfMemory>
    requires writable { P.codec.writable frame.now schema.now.attrs piece.now }
    requires spelled { IsSpelledFrag piece.now.head.frag }
    ensures is { IfOk result (λ state. state ≡ putting (merge_objects P.codec frame.now schema.now piece.now names.now) 0 (outcome.Consolidated piece.now.head.frag count)) }
    ensures may { IfOk result (IsMergeState P.codec) }
    ensures few_calls { IfOk result (λ state. merges_left P.left state < 2 ^ 64) }
{
    let frag = piece.head().frag;
    let parts = P::parts(alloc, frame, schema, piece)?;
    let objects = objects_of(alloc, frag, parts, encode_vac(alloc, names)?)?;
    Ok(put::<P>(objects, 0, Outcome::Consolidated(frag, count)))
}

// The objects that a consolidation puts: the parts of its fragment, its `.vac`, and then the empty
// `.wrt`.
fn objects_of(
    alloc: Global,
    frag: FragKey,
    parts: PartList,
    vac: ByteList,
) -> Result<NewObjectList, OutOfMemory>
    requires frag { IsSpelledFrag frag }
    requires parts { All (λ x. IsSpelledPart x.part) parts }
    ensures is { IfOk result (λ objects. objects ≡ part_objects frag parts ++ record { name = vac_of frag; bytes = vac } ∷ record { name = wrt_of frag; bytes = [] } ∷ []) }
    ensures spelled { IfOk result HaveNames }
{
    let mut objects = part_objects(alloc, frag, parts)?;
    objects.push(NewObject {
        name: Name::Commit(frag, CommitKind::Vac),
        bytes: SharedBytes::of_list(vac)?,
    })?;
    objects.push(NewObject {
        name: Name::Commit(frag, CommitKind::Wrt),
        bytes: SharedBytes::new(),
    })?;
    Ok(NewObjectList::from_vec(objects))
}

// An object for each part of a fragment.
fn part_objects(
    alloc: Global,
    frag: FragKey,
    parts: PartList,
) -> Result<Vec<NewObject>, OutOfMemory>
    ensures { IfOk result (λ objects. objects.items ≡ part_objects frag parts) }
{
    let parts = parts.into_vec();
    let mut objects = Vec::with_capacity(alloc, parts.len())?;
    for part in parts {
        objects.push(part_object(frag, part)?)?;
    }
    Ok(objects)
}

// The object of a part of a fragment.
fn part_object(frag: FragKey, part: PartBytes) -> Result<NewObject, OutOfMemory>
    ensures { IfOk result (λ object. object ≡ record { name = Name.Part frag part.part; bytes = part.bytes }) }
{
    let PartBytes { part, bytes } = part;
    Ok(NewObject {
        name: Name::Part(frag, part),
        bytes: SharedBytes::of_list(bytes)?,
    })
}

// The names of a first source and others.
fn frags_of(alloc: Global, first: &Opened, others: &[Opened]) -> Result<FragList, OutOfMemory>
    ensures { IfOk result (λ frags. frags ≡ frags_of (first.now ∷ others.now)) }
{
    let mut frags = FragList::new(alloc);
    frags.push(first.frag)?;
    for one in others {
        frags.push(one.frag)?;
    }
    Ok(frags)
}
