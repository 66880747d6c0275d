//! What holds of dense fragments in tiles, whatever a store does. The calls do nothing.
ghost use Rattle.std.specs.Prelude.{◌≡◌, ◌^◌, ◌<◌, ℕ, false, List, Option, length, map, All};
ghost use Rattle.ts_base.specs.declared.heads.Piece.{Piece as AnyPiece};
ghost use Rattle.ts_base.specs.declared.keys.FragKey.{FragKey as AnyFragKey};
ghost use Rattle.ts_base.specs.declared.names.Part.{Part as AnyPart};
ghost use Rattle.ts_base.specs.declared.names.PartBytes.{PartBytes as AnyPartBytes};
ghost use Rattle.ts_schema.specs.declared.attrs.Attr.{Attr as AnyAttr};
ghost use Rattle.ts_schema.specs.declared.frames.Frame.{Frame as AnyFrame};
ghost use Rattle.ts_schema.specs.declared.schemas.Schema.{Schema as AnySchema};
ghost use Rattle.ts_domain.specs.Rects.{places_meeting};
ghost use Rattle.ts_order.specs.Orders.{Ascends, global_cmp};
ghost use Rattle.ts_schema.specs.declared.wants.Want.{Want as AnyWant};
ghost use Rattle.ts_schema.specs.Parts.{look_in};
ghost use Rattle.ts_schema.specs.Wants.{taken};
ghost use Rattle.ts_plain.specs.declared.stored.StoredPiece.{StoredPiece as AnyStoredPiece};
ghost use Rattle.ts_plain.specs.declared.stored.StoredCell.{StoredCell as AnyStoredCell};
ghost use Rattle.ts_plain.specs.Rules.{volume};
ghost use Rattle.ts_plain.specs.Pieces.{piece_of, version_in};
ghost use Rattle.ts_plain.specs.Writes.{box_of, hulled_for};
ghost use Rattle.ts_sparse.specs.Cuts.{taken_at};
ghost use Rattle.ts_sparse.specs.Sparse.{IsThere};
ghost use Rattle.ts_dense.specs.Slots.{cells_in, coords_over, is_hole, slot_tiles, slots_of, tiles_over, versions_of};
ghost use Rattle.ts_dense.specs.Dense.{FitsDense, IsDense, parts_of};

/// Two pieces of one fragment with the same parts are one piece.
pub fn parts_store_one_piece()
    ensures { (frame : AnyFrame) (schema : AnySchema) (p q : AnyPiece) (look : AnyPart → Option (List ℕ)) → p.head.frag ≡ q.head.frag → IsDense frame schema p look → IsDense frame schema q look → p ≡ q }
{}

/// A piece has one stored form, and one spelling: the parts of that form.
#[tactic(auto, using(crate::proofs::FormLaws::one_form))]
pub fn pieces_have_one_form()
    ensures form { (frame : AnyFrame) (attrs : List AnyAttr) (frag : AnyFragKey) (s t : AnyStoredPiece) → FitsDense frame attrs frag s → FitsDense frame attrs frag t → piece_of frag s ≡ piece_of frag t → s ≡ t }
    ensures spelling { (frame : AnyFrame) (schema : AnySchema) (piece : AnyPiece) (look : AnyPart → Option (List ℕ)) → IsDense frame schema piece look → All (IsThere look) (parts_of frame schema.attrs (hulled_for piece)) }
{}

/// The parts of a piece whose stored form fits spell it, where each is short enough to be got at once.
#[tactic(auto, using(crate::proofs::OnceLaws::parts_spell))]
pub fn parts_spell_their_piece()
    ensures { (frame : AnyFrame) (schema : AnySchema) (piece : AnyPiece) → FitsDense frame schema.attrs piece.head.frag (hulled_for piece) → piece ≡ piece_of piece.head.frag (hulled_for piece) → All (λ (p : AnyPartBytes). length p.bytes < 2 ^ 64) (parts_of frame schema.attrs (hulled_for piece)) → IsDense frame schema piece (look_in (parts_of frame schema.attrs (hulled_for piece))) }
{}

/// A fragment has a slot for each cell of its hull, and they stand in global order (`ascend`, `stand`,
/// `many`). The cells that they have are those of the fragment (`cells`). Where no consolidation made it,
/// no slot is a hole (`no_hole`).
#[tactic(auto, using(crate::proofs::SlotOrder::slots_ascend, crate::proofs::SlotOrder::slots_at_cells, crate::proofs::SlotLaws::slots_of_many, crate::proofs::SlotLaws::cells_back, crate::proofs::SlotLaws::slots_full))]
pub fn slots_stand_in_global_order()
    ensures ascend { (frame : AnyFrame) (attrs : List AnyAttr) (frag : AnyFragKey) (s : AnyStoredPiece) → FitsDense frame attrs frag s → Ascends (global_cmp frame.domain frame.tile frame.cell) (map (λ (c : AnyStoredCell). c.coords) (slots_of frame s)) }
    ensures stand { (frame : AnyFrame) (attrs : List AnyAttr) (frag : AnyFragKey) (s : AnyStoredPiece) → FitsDense frame attrs frag s → map (λ (c : AnyStoredCell). c.coords) (slots_of frame s) ≡ coords_over frame (box_of s.head.hull) }
    ensures many { (frame : AnyFrame) (attrs : List AnyAttr) (frag : AnyFragKey) (s : AnyStoredPiece) → FitsDense frame attrs frag s → length (slots_of frame s) ≡ volume s.head.hull }
    ensures cells { (frame : AnyFrame) (attrs : List AnyAttr) (frag : AnyFragKey) (s : AnyStoredPiece) → FitsDense frame attrs frag s → cells_in (slots_of frame s) ≡ s.cells }
    ensures no_hole { (frame : AnyFrame) (attrs : List AnyAttr) (frag : AnyFragKey) (s : AnyStoredPiece) → FitsDense frame attrs frag s → s.head.consolidated ≡ false → All (λ (slot : AnyStoredCell). is_hole slot ≡ false) (slots_of frame s) }
{}

/// The space tiles that meet a box have all that is wanted in it.
#[tactic(auto, using(crate::proofs::SpaceTiles::dense_suffices))]
pub fn tiles_that_meet_suffice()
    ensures { (frame : AnyFrame) (attrs : List AnyAttr) (frag : AnyFragKey) (s : AnyStoredPiece) (want : AnyWant) → FitsDense frame attrs frag s → taken_at want (map (versions_of s.head) (slot_tiles frame s)) (places_meeting want.sub (tiles_over frame (box_of s.head.hull))) ≡ taken want (map (version_in s.head) s.cells) }
{}
