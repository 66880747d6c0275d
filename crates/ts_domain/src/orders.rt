//! The orders of cells.

/// The order in which cells, or space tiles, are compared: by the first dimension first, or by
/// the last one first.
#[derive(Clone, Copy, Debug, PartialEq, Eq)]
pub enum Order {
    /// Row order: the first dimension is compared first, so the last one changes fastest.
    Row,
    /// Column order: the last dimension is compared first, so the first one changes fastest.
    Col,
}

/// The order in which cells are handed in or out.
#[derive(Clone, Copy, Debug, PartialEq, Eq)]
pub enum Layout {
    /// Row order.
    Row,
    /// Column order.
    Col,
    /// Global order: by the space tiles in the tile order, then by the cells in the cell order.
    Global,
}
