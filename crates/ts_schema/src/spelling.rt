//! How the parts of fragments are written and read, whichever way that is.
ghost use Rattle.std.specs.Prelude.{ℕ, List};
ghost use Rattle.ts_base.specs.declared.keys.FragKey.{FragKey};
ghost use Rattle.ts_base.specs.declared.names.Part.{Part};
ghost use Rattle.ts_base.specs.declared.heads.Piece.{Piece};
ghost use Rattle.ts_schema.specs.declared.frames.Frame.{Frame};
ghost use Rattle.ts_schema.specs.declared.schemas.Schema.{Schema};
ghost use Rattle.ts_schema.specs.Parts.{Look, Got, Sized};

/// The grammar of the parts of a fragment. It has two meanings and no calls.
pub trait Spelling {
    /// In an array of this frame the parts spell the piece, whose cells are written in the schema.
    ghost spelled: { Frame → Schema → Piece → Look → Type 0 };

    /// What was got of the parts of a fragment, and the sizes that were told, break the grammar first
    /// in this part at this offset.
    ghost off: { Frame → Schema → FragKey → List Got → List Sized → Part → ℕ → Type 0 };
}
