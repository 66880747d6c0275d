//! Conditions.

use crate::fields::CondFieldList;
use crate::nodes::CondNode;
use std::marker::Model;

/// A condition on cells: the fields that it names, and a tree of tests.
///
/// A condition records the type, the nullability and the fill of each field, so that it can be
/// asked of rows of other schemas. Contracts see it as plain data.
#[derive(Debug, Drop)]
pub struct Cond {
    /// The fields, in the order in which the tree first names them.
    pub fields: CondFieldList,
    /// The tree.
    pub root: CondNode,
}

impl Model for Cond {
    ghost use Rattle.ts_cond.specs.Tests.{Condition};
    ghost use Rattle.ts_cond.specs.Codes.{test_code};
    ghost use Rattle.std.specs.Coded.{codes};
    ghost use Rattle.ts_cond.specs.Views.{test_of};

    ghost Value = { Condition };

    ghost coded = { Prim.hlevel (codes, test_code) };

    ghost view = { λ cond. record { fields = cond.fields; root = test_of cond.root } };
}
