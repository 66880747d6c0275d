//! Trees of boxes: ten consecutive boxes of a level lie in one of the level above.
ghost use Rattle.std.specs.Prelude.{◌≡◌, ◌+◌, ◌*◌, ◌^◌, ◌<◌, ◌≤◌, length, All, IfOk};
ghost use Rattle.std.specs.List.{flat_map};
ghost use Rattle.ts_domain.specs.Boxes.{IsBox};
ghost use Rattle.ts_domain.specs.Rects.{IsLike, AllLike, places_meeting, rect_bytes};
ghost use Rattle.ts_rtree.specs.Trees.{nodes_of, count_meeting};

use crate::building::all_nodes;
use crate::searching::found_in;
use std::alloc::Global;
use std::marker::Model;
use ts_base::{ByteList, IndexList, OutOfMemory};
use ts_domain::{BoxList, RectTable, SubBox};

/// A tree over a list of boxes, its leaves.
///
/// Ten consecutive boxes of a level lie in one of the level above, which is their hull, until a level
/// has one box. Contracts see the leaves, and how often the tree looked at one of its boxes.
#[derive(Debug, Drop)]
pub struct Tree {
    table: RectTable,
    leaves: u64,
}

impl Model for Tree {
    ghost use Rattle.std.specs.Prelude.{take};
    ghost use Rattle.ts_rtree.specs.Trees.{Rooted, IsTree};

    ghost Value = { Rooted };

    ghost view = { λ tree. record { leaves = take tree.leaves tree.table.boxes; looks = tree.table.looks } };

    ghost invariant = { λ tree. IsTree tree.leaves tree.table.boxes };
}

impl Tree {
    /// The tree over these leaves.
    pub fn build(alloc: Global, leaves: &BoxList) -> Result<Tree, OutOfMemory>
        requires some { 1 ≤ length leaves.now }
        requires few { length leaves.now < 2 ^ 32 }
        requires alike { AllLike leaves.now }
        ensures { IfOk result (λ tree. tree ≡ record { leaves = leaves.now; looks = 0 }) }
    {
        let boxes = all_nodes(alloc, leaves)?;
        Ok(Tree {
            table: RectTable::new(boxes),
            leaves: leaves.len(),
        })
    }

    /// The places of the leaves that have a cell in common with a box, ascending and counted from 0.
    ///
    /// But for the top it looks only at boxes that lie below one which meets `sub`: at ten at most for
    /// each that does.
    pub fn search(&mut self, alloc: Global, sub: &SubBox) -> Result<IndexList, OutOfMemory>
        requires sub { IsBox sub.now }
        requires like { All (IsLike sub.now) self.old.leaves }
        ensures found { IfOk result (λ found. found ≡ places_meeting sub.now self.old.leaves) }
        ensures stays { self.new.leaves ≡ self.old.leaves }
        ensures looks { self.new.looks ≤ self.old.looks + (1 + 10 * count_meeting sub.now (nodes_of self.old.leaves)) }
    {
        found_in(alloc, &mut self.table, 0, self.leaves, sub)
    }

    /// How often the tree looked at one of its boxes since it was made, or 2^64 - 1 where it was more
    /// often.
    pub fn looks(&self) -> u64
        ensures { result ≡ self.now.looks }
    {
        self.table.looks()
    }

    /// The spelling of the tree: its leaves, and then level by level the boxes above. Of each box it has,
    /// dimension by dimension, the low bound and the high bound in 16 bytes.
    pub fn bytes(&self, alloc: Global) -> Result<ByteList, OutOfMemory>
        ensures { IfOk result (λ bytes. bytes ≡ flat_map rect_bytes (nodes_of self.now.leaves)) }
    {
        self.table.bytes(alloc)
    }
}

// Trees are the same by their boxes alone, however often they were looked into.
impl PartialEq for Tree {
    ghost use Rattle.std.specs.Cmp.{on_per};
    ghost use Rattle.std.specs.Cmp.Lexicographic.{pointwise, lists_per};
    ghost use Rattle.ts_domain.specs.contracts.boxes.SubBoxPartialEq.TheImpl as rect;
    ghost use Rattle.ts_domain.specs.contracts.boxes.SubBoxPartialEq.TheImpl.Laws.{laws-law};
    ghost use Rattle.ts_rtree.specs.Trees.{nodes_of};

    ghost eq = { λ a b. pointwise (rect.ghosts).eq (nodes_of a.leaves) (nodes_of b.leaves) };

    ghost laws = { on_per (λ tree. nodes_of tree.leaves) (lists_per laws-law) };

    fn eq(&self, other: &Self) -> bool {
        self.table == other.table
    }
}

impl Eq for Tree {
    ghost use Rattle.std.specs.Cmp.{on_equiv};
    ghost use Rattle.std.specs.Cmp.Lexicographic.{lists_equiv};
    ghost use Rattle.ts_domain.specs.contracts.boxes.SubBoxEq.TheImpl.Laws.{laws-law};
    ghost use Rattle.ts_rtree.specs.Trees.{nodes_of};

    ghost laws = { on_equiv (λ tree. nodes_of tree.leaves) (lists_equiv laws-law) };
}
