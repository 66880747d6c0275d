//! What holds of sparse fragments in tiles, whatever a store does. The calls do nothing.
ghost use Rattle.ts_actor.specs.PieceLaws.{SpellsOne, NamesHead, RefusesBroken, SettlesHeads, OpensUnbroken, JudgesRight, TakesSpelled, AsksOwn, AsksBounded, TakesInside, TakesOrdered, TakesStorable};
ghost use Rattle.ts_model.specs.Codecs.{CodecLaws};
ghost use Rattle.ts_fetch.specs.Plans.{gets_left};
ghost use Rattle.ts_sparse_read.specs.Codecs.{sparse_codec, sparse_gets, SparseTracks, IsSparseIn, IsSparseBroken};

/// What one write makes, and what such fragments are merged into, can be written in tiles; what is written
/// is read again, and fetches find what was written (`laws`). The parts of a fragment hold one piece
/// (`one_piece`), and a head bears the name of its fragment (`names`).
#[tactic(auto, using(crate::specs::SparsePieceLaws::sparse_codec_laws, crate::specs::SparseLaws::sparse_one, crate::specs::SparseHeads::sparse_names))]
pub fn fragments_in_tiles_are_read_again()
    ensures laws { CodecLaws sparse_codec IsSparseIn SparseTracks }
    ensures one_piece { SpellsOne IsSparseIn }
    ensures names { NamesHead sparse_codec }
{}

/// What is refused as damaged breaks the grammar at the offset that is told, whether it is the head
/// (`broken`, `settled`), the metadata (`whole`) or what a fetch got (`judges`); and what is taken does not.
#[tactic(auto, using(crate::specs::SparseBroken::sparse_broken, crate::specs::SparseHeads::sparse_settles, crate::specs::SparseBroken::sparse_whole, crate::specs::SparseBroken::sparse_judges))]
pub fn what_is_refused_is_broken()
    ensures broken { RefusesBroken sparse_codec IsSparseBroken }
    ensures settled { SettlesHeads sparse_codec IsSparseBroken }
    ensures whole { OpensUnbroken sparse_codec IsSparseBroken }
    ensures judges { JudgesRight sparse_codec IsSparseBroken }
{}

/// Whatever replies come, a fetch asks for parts of its own fragment alone (`own`), and for no more gets
/// than one for each object that it reads of each tile whose box meets the box that is wanted (`bounded`).
/// What it takes without a call is what is wanted of the piece that is spelled (`found`).
#[tactic(auto, using(crate::specs::SparseGets::sparse_own, crate::specs::SparseGets::sparse_bounded, crate::specs::SparseGets::sparse_found))]
pub fn fetches_get_the_tiles_that_meet_their_box()
    ensures own { AsksOwn sparse_codec }
    ensures bounded { AsksBounded sparse_codec IsSparseIn gets_left sparse_gets }
    ensures found { TakesSpelled sparse_codec IsSparseIn }
{}

/// Whatever replies come, what a fetch takes lies in the box that was wanted (`inside`) and in the domain, and
/// stands in global order (`ordered`). What a fetch of all takes can be written again (`stores`).
#[tactic(auto, using(crate::specs::SparseGets::sparse_inside, crate::specs::InOrder::sparse_ordered, crate::specs::Restored::sparse_stores))]
pub fn fetches_take_cells_in_order()
    ensures inside { TakesInside sparse_codec }
    ensures ordered { TakesOrdered sparse_codec }
    ensures stores { TakesStorable sparse_codec }
{}
