//! Dimensions, domains and boxes of cells.
#![tactic(auto)]

mod boxes;
mod dims;
mod domain;
mod orders;
mod outside;
mod rects;

pub use boxes::{BoxList, SubBox};
pub use dims::{Dim, DimList, DomainFault, has_name};
pub use domain::Domain;
pub use orders::{Layout, Order};
pub use outside::Outside;
pub use rects::RectTable;
