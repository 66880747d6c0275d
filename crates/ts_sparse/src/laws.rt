//! What holds of sparse fragments, whatever a store does. The calls do nothing.
ghost use Rattle.std.specs.Prelude.{◌≡◌, ◌+◌, ◌*◌, ◌^◌, ◌<◌, ◌≤◌, ℕ, List, [], ◌∷◌, Option, Some, None, Ok, length, map, take, drop, get_or, All};
ghost use Rattle.std.specs.Option.{IsSomeAnd};
ghost use Rattle.ts_base.specs.declared.heads.Piece.{Piece as AnyPiece};
ghost use Rattle.ts_base.specs.declared.keys.FragKey.{FragKey as AnyFragKey};
ghost use Rattle.ts_base.specs.declared.names.Part.{Part as AnyPart};
ghost use Rattle.ts_base.specs.declared.names.Part.TheVariants as part;
ghost use Rattle.ts_base.specs.declared.names.PartBytes.{PartBytes as AnyPartBytes};
ghost use Rattle.ts_domain.specs.declared.boxes.SubBox.{SubBox as AnySubBox};
ghost use Rattle.ts_schema.specs.declared.attrs.Attr.{Attr as AnyAttr};
ghost use Rattle.ts_schema.specs.declared.frames.Frame.{Frame as AnyFrame};
ghost use Rattle.ts_schema.specs.declared.schemas.Schema.{Schema as AnySchema};
ghost use Rattle.ts_schema.specs.declared.wants.Want.{Want as AnyWant};
ghost use Rattle.ts_schema.specs.Wants.{taken};
ghost use Rattle.ts_schema.specs.Parts.{look_in};
ghost use Rattle.ts_plain.specs.declared.stored.StoredPiece.{StoredPiece as AnyStoredPiece};
ghost use Rattle.ts_plain.specs.declared.stored.StoredHead.{StoredHead as AnyStoredHead};
ghost use Rattle.ts_plain.specs.declared.stored.StoredCell.{StoredCell as AnyStoredCell};
ghost use Rattle.ts_plain.specs.Merges.{VersionsAscend, global_order};
ghost use Rattle.ts_plain.specs.Rules.{last_of};
ghost use Rattle.ts_rtree.specs.Trees.{nodes_of};
ghost use Rattle.ts_plain.specs.Pieces.{piece_of, version_in};
ghost use Rattle.ts_plain.specs.Writes.{stored_for};
ghost use Rattle.ts_domain.specs.Rects.{places_meeting};
ghost use Rattle.ts_footer.specs.Metas.{meta_in};
ghost use Rattle.ts_sparse.specs.Told.{meta_for};
ghost use Rattle.ts_sparse.specs.Cuts.{taken_at, IsHullOfCells, Rise, TilesRise};
ghost use Rattle.ts_sparse.specs.Tilings.{tiles_of};
ghost use Rattle.ts_sparse.specs.Sparse.{IsSparse, IsThere, FitsSparse, meta_part, parts_of, leaf_of, leaves_of};
ghost use Rattle.ts_plain.specs.Writes.{box_of};

/// Two pieces of one fragment with the same parts are one piece.
pub fn parts_store_one_piece()
    ensures { (frame : AnyFrame) (schema : AnySchema) (p q : AnyPiece) (look : AnyPart → Option (List ℕ)) → p.head.frag ≡ q.head.frag → IsSparse frame schema p look → IsSparse frame schema q look → p ≡ q }
{}

/// A piece has one stored form, and one spelling: the parts of that form.
#[tactic(auto, using(crate::proofs::FormLaws::one_form))]
pub fn pieces_have_one_form()
    ensures form { (frame : AnyFrame) (attrs : List AnyAttr) (frag : AnyFragKey) (s t : AnyStoredPiece) → FitsSparse frame attrs frag s → FitsSparse frame attrs frag t → piece_of frag s ≡ piece_of frag t → s ≡ t }
    ensures spelling { (frame : AnyFrame) (schema : AnySchema) (piece : AnyPiece) (look : AnyPart → Option (List ℕ)) → IsSparse frame schema piece look → All (IsThere look) (parts_of frame schema.attrs (stored_for piece)) }
{}

/// The parts of a piece whose stored form fits spell it, where each is short enough to be got at once.
#[tactic(auto, using(crate::proofs::OnceLaws::parts_spell))]
pub fn parts_spell_their_piece()
    ensures { (frame : AnyFrame) (schema : AnySchema) (piece : AnyPiece) → FitsSparse frame schema.attrs piece.head.frag (stored_for piece) → piece ≡ piece_of piece.head.frag (stored_for piece) → All (λ (p : AnyPartBytes). length p.bytes < 2 ^ 64) (parts_of frame schema.attrs (stored_for piece)) → IsSparse frame schema piece (look_in (parts_of frame schema.attrs (stored_for piece))) }
{}

/// There are as many tiles as there are cells divided by the size of a tile, rounded up, and each tile is
/// the next range of cells.
#[tactic(auto, using(crate::proofs::CountLaws::tiles_counted, crate::proofs::CountLaws::tiles_ranges))]
pub fn tiles_are_ranges()
    ensures count { (n : ℕ) (cells : List AnyStoredCell) → 1 ≤ n → (length cells ≤ length (tiles_of n cells) * n) × (length (tiles_of n cells) * n < length cells + n) }
    ensures range { (n i : ℕ) (cells : List AnyStoredCell) → 1 ≤ n → get_or (tiles_of n cells) i [] ≡ take n (drop (i * n) cells) }
{}

/// The leaf of a tile is the least box that has its cells.
#[tactic(auto, using(crate::proofs::CutLaws::leaf_is_hull))]
pub fn a_leaf_is_the_hull_of_its_cells()
    ensures { (sub : AnySubBox) (first : AnyStoredCell) (others : List AnyStoredCell) → All (λ (cell : AnyStoredCell). length cell.coords ≡ length sub.low) (first ∷ others) → IsHullOfCells (leaf_of (first ∷ others)) (first ∷ others) }
{}

/// The last box of the tree is the hull that the metadata says.
#[tactic(auto, using(crate::proofs::CountLaws::last_is_hull))]
pub fn the_last_box_is_the_hull()
    ensures { (frame : AnyFrame) (attrs : List AnyAttr) (frag : AnyFragKey) (s : AnyStoredPiece) → FitsSparse frame attrs frag s → last_of (nodes_of (leaves_of frame.capacity s.cells)) ≡ Some (box_of s.head.hull) }
{}

/// Read by the grammar of `ts_footer`, the object of the metadata says the head, the length of each object
/// and where the tiles start in those of byte lists, the number of tiles, and the tree over the hulls of the
/// tiles (`object`). So does the object that is there among the parts of a piece (`piece`), and the head is
/// that of the piece (`head`).
#[tactic(auto, using(crate::proofs::ToldLaws::read_back, crate::proofs::ToldLaws::piece_told))]
pub fn metadata_is_read_back()
    ensures object { (frame : AnyFrame) (attrs : List AnyAttr) (frag : AnyFragKey) (s : AnyStoredPiece) → FitsSparse frame attrs frag s → All (λ (p : AnyPartBytes). length p.bytes < 2 ^ 64) (parts_of frame attrs s) → meta_in frame attrs frag (meta_part frame attrs s).bytes ≡ Ok (meta_for frame attrs frag s) }
    ensures piece { (frame : AnyFrame) (schema : AnySchema) (piece : AnyPiece) (look : AnyPart → Option (List ℕ)) → IsSparse frame schema piece look → IsSomeAnd (look part.Meta) (λ object. meta_in frame schema.attrs piece.head.frag object ≡ Ok (meta_for frame schema.attrs piece.head.frag (stored_for piece))) }
    ensures head { (frame : AnyFrame) (schema : AnySchema) (piece : AnyPiece) (look : AnyPart → Option (List ℕ)) → IsSparse frame schema piece look → (meta_for frame schema.attrs piece.head.frag (stored_for piece)).head ≡ piece.head }
{}

/// The versions of a fragment ascend in global order, and cells are in order where they are so in each
/// tile and from tile to tile.
#[tactic(auto, using(crate::proofs::OrderLaws::sparse_ascends, crate::proofs::OrderLaws::order_by_tiles, crate::proofs::OrderLaws::order_from_tiles))]
pub fn tiles_keep_the_order()
    ensures whole { (frame : AnyFrame) (attrs : List AnyAttr) (frag : AnyFragKey) (s : AnyStoredPiece) → FitsSparse frame attrs frag s → VersionsAscend (global_order frame) (map (version_in s.head) s.cells) }
    ensures tiles { (frame : AnyFrame) (head : AnyStoredHead) (n : ℕ) (cells : List AnyStoredCell) → Rise frame head None cells → TilesRise frame head None (tiles_of n cells) }
    ensures back { (frame : AnyFrame) (head : AnyStoredHead) (n : ℕ) (cells : List AnyStoredCell) → TilesRise frame head None (tiles_of n cells) → Rise frame head None cells }
{}

/// The tiles whose leaves meet a box have all that is wanted in it.
#[tactic(auto, using(crate::proofs::CutLaws::all_suffice))]
pub fn tiles_that_meet_suffice()
    ensures { (frame : AnyFrame) (attrs : List AnyAttr) (frag : AnyFragKey) (s : AnyStoredPiece) (want : AnyWant) → FitsSparse frame attrs frag s → taken_at want (map (map (version_in s.head)) (tiles_of frame.capacity s.cells)) (places_meeting want.sub (leaves_of frame.capacity s.cells)) ≡ taken want (map (version_in s.head) s.cells) }
{}
