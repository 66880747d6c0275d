//! How the pieces of an array are written in parts and read from them, whichever way that is.
ghost use Rattle.std.specs.Prelude.{◌≡◌, ◌<◌, ◌^◌, ℕ, All, IfOk};
ghost use Rattle.std.specs.Thread.{IsSync};
ghost use Rattle.ts_base.specs.declared.heads.Piece.{Piece as AnyPiece};
ghost use Rattle.ts_base.specs.Names.{IsSpelledPart, IsSpelledFrag};
ghost use Rattle.ts_wire.specs.Reading.{DecodesOr};
ghost use Rattle.ts_schema.specs.declared.frames.Frame.{Frame as AnyFrame};
ghost use Rattle.ts_schema.specs.declared.schemas.Schema.{Schema as AnySchema};
ghost use Rattle.ts_schema.specs.declared.wants.Want.{Want as AnyWant};
ghost use Rattle.ts_schema.specs.Parts.{Look};
ghost use Rattle.ts_plain.specs.Merges.{global_order, LiesInside, VersionsAscend, IsMergedAll};
ghost use Rattle.ts_store.specs.declared.call.Call.{Call as AnyCall};
ghost use Rattle.ts_model.specs.Codecs.{Codec, CodecLaws};
ghost use Rattle.ts_actor.specs.Fetches.{IsStep, FallsAtAsk, AsksSpelled};
ghost use Rattle.ts_actor.specs.PieceLaws.{SpellsOne, RefusesBroken, OpensUnbroken, TakesInside, TakesOrdered, TakesSpelled, TakesStorable, JudgesRight, AsksBounded, AsksOwn, NamesHead, SettlesHeads};

use std::alloc::Global;
use std::thread::Threads;
use ts_base::{FragKey, Head, OutOfMemory, Part, PartList, VersionList, VersionLists};
use ts_batch::Batches;
use ts_piece::BatchPiece;
use ts_schema::{Frame, Schema, Spelling, Want};
use ts_store::{Call, Reply, SharedBytes};
use ts_wire::ReadFault;

/// What a fetch does with a reply.
#[derive(Debug, Drop)]
pub enum Fetched {
    /// It asks for this call on a part of its fragment, and waits for its reply.
    Ask(Call),
    /// These are all versions that are wanted.
    Got(Batches),
    /// This part breaks its layout first at the offset `at`, in bytes from its start.
    Damaged { part: Part, at: u64 },
    /// There was no memory to go on.
    OutOfMemory,
}

/// One way to write the pieces of an array in parts, and to read them.
///
/// What each call computes is a function, `codec`; the laws at the end say that these functions
/// undo each other.
pub trait Pieces: Spelling {
    /// A fetch: how far the reading of a fragment has come.
    type Fetch: Drop;

    /// What the calls compute.
    ghost codec: { Codec Self.Fetch };

    /// A fetch waits for the reply to a call, on its way to what is wanted of the piece that these
    /// parts spell.
    ghost tracks: { AnyFrame → AnySchema → AnyPiece → Look → AnyWant → Self.Fetch → AnyCall → Type 0 };

    /// More than the calls that a fetch still asks for.
    ghost left: { Self.Fetch → ℕ };

    /// How many gets a fetch may still make.
    ghost gets: { Self.Fetch → ℕ };

    /// How many gets a fetch of what is wanted of a piece may make. A way to write fragments chooses
    /// this number, and its own crate says what it is.
    ghost most_gets: { AnyFrame → AnySchema → AnyPiece → AnyWant → ℕ };

    /// The parts of a piece that can be written, in the order in which they are put: that of the head is
    /// the last. `codec.writable` says which pieces can be.
    fn parts(
        alloc: Global,
        frame: &Frame,
        schema: &Schema,
        piece: &BatchPiece,
    ) -> Result<PartList, OutOfMemory>
        requires { codec.writable frame.now schema.now.attrs piece.now }
        ensures is { IfOk result (λ parts. parts ≡ codec.parts frame.now schema.now piece.now) }
        ensures spelled { IfOk result (All (λ x. IsSpelledPart x.part)) };

    /// The part that has the head.
    fn head_part(frame: &Frame) -> Part
        ensures is { result ≡ codec.head_part frame.now }
        ensures spelled { IsSpelledPart result };

    /// The head of a fragment, from the object of that part. The offset of the first broken field
    /// comes where the object breaks its layout up to the end of the head.
    fn head(alloc: Global, frame: &Frame, frag: FragKey, object: &[u8]) -> Result<Head, ReadFault>
        ensures { DecodesOr (λ head. head) (codec.head frame.now frag object.now) result };

    /// Begins to fetch what is wanted of a fragment, from the object of the part with the head on.
    fn fetch<R: Threads + Sync>(
        rt: &R,
        alloc: Global,
        frame: &Frame,
        schema: &Schema,
        frag: FragKey,
        object: &SharedBytes,
        want: &Want,
    ) -> Result<Self::Fetch, ReadFault>
        requires frag { IsSpelledFrag frag }
        requires sync { IsSync R.row }
        ensures is { DecodesOr (λ fetch. fetch) (codec.opens frame.now schema.now frag object.now want.now) result }
        ensures few_calls { IfOk result (λ fetch. left fetch < 2 ^ 128) };

    /// Goes on with a fetch. The first reply is `Start`, each later one is bytes or a length.
    fn next<R: Threads + Sync>(
        rt: &R,
        alloc: Global,
        fetch: &mut Self::Fetch,
        reply: Reply,
    ) -> Fetched
        requires { IsSync R.row }
        ensures is { IsStep (codec.steps fetch.old reply) fetch.new result }
        ensures falls { FallsAtAsk (left fetch.old) (left fetch.new) result }
        ensures spelled { AsksSpelled result };

    /// Many lists of versions as one in global order: at each place the version with the greatest key
    /// of all lists, that of the first list where keys tie.
    ///
    /// Each list stands in global order, its versions of one place by ascending key.
    fn merge(alloc: Global, frame: &Frame, lists: VersionLists) -> Result<VersionList, OutOfMemory>
        requires inside { All (All (LiesInside frame.now)) lists }
        requires ascend { All (VersionsAscend (global_order frame.now)) lists }
        ensures { IfOk result (IsMergedAll (global_order frame.now) lists) };

    /// What commands make can be written, what is written is read again, and fetches find what was
    /// written.
    ghost laws: { CodecLaws codec Self.spelled tracks };

    /// The parts of a fragment hold one piece.
    ghost one_piece: { SpellsOne Self.spelled };

    /// A head bears the name of its fragment.
    ghost names: { NamesHead codec };

    /// What is refused as damaged breaks the grammar first at the offset that is told.
    ghost broken: { RefusesBroken codec Self.off };

    /// No head is read of an object that is broken within it.
    ghost settled: { SettlesHeads codec Self.off };

    /// An object that breaks the grammar is not read as if it were whole.
    ghost whole: { OpensUnbroken codec Self.off };

    /// What a fetch refuses as damaged is broken by what it got, and what it takes is not.
    ghost judges: { JudgesRight codec Self.off };

    /// Where a fetch takes versions without a call, the object of the head's part spells a piece of the
    /// fragment, and what it takes is what is wanted of that piece.
    ghost found: { TakesSpelled codec Self.spelled };

    /// A fetch asks for parts of its own fragment alone, whatever replies come.
    ghost own: { AsksOwn codec };

    /// A fetch makes no more gets than it may of the piece that it reads.
    ghost bounded: { AsksBounded codec Self.spelled gets most_gets };

    /// Whatever the replies are, the versions that a fetch takes lie in the box that was wanted.
    ghost inside: { TakesInside codec };

    /// Whatever replies come, the versions that a fetch takes lie in the domain and stand in global
    /// order, those of one place by ascending key, so that they can be merged.
    ghost ordered: { TakesOrdered codec };

    /// Whatever replies come, a fragment of which a fetch took all can be written again: its head and
    /// these versions are a piece that can be written.
    ghost stores: { TakesStorable codec };
}
