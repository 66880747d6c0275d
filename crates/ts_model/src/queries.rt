//! What queries ask of an array, and the cells that they select.
ghost use Rattle.std.specs.Prelude.{◌≡◌};
ghost use Rattle.ts_model.specs.declared.queries.QueryFault.TheVariants as fault;

use crate::answers::Refusal;
use ts_base::{Coords, OutOfMemory, Row, Sequence};
use ts_cond::Cond;
use ts_domain::{Layout, SubBox};

/// Places of fields: the dimensions count first, and then the attributes, from 0.
pub type PlaceList = Sequence<u32>;

/// What a query asks of an array, once its names and its condition are known to fit.
#[derive(Debug, Drop)]
pub struct Ready {
    /// The box, which lies in the domain.
    pub sub: SubBox,
    /// The places of the fields that are shown, in order.
    pub fields: PlaceList,
    /// The condition that rows are to match.
    pub filter: Option<Cond>,
    /// The order of the rows.
    pub layout: Layout,
}

/// Why a query is not asked.
#[derive(Clone, Copy, Debug, PartialEq, Eq)]
pub enum QueryFault {
    /// The read is refused.
    Refused(Refusal),
    /// There was no memory to check it.
    OutOfMemory,
}

impl From<OutOfMemory> for QueryFault {
    ghost from_gives = { λ _ given. given ≡ fault.OutOfMemory };

    fn from(_error: OutOfMemory) -> QueryFault {
        QueryFault::OutOfMemory
    }
}

/// A cell with its row, as it shows through a schema.
#[derive(Debug, Drop, PartialEq, Eq)]
pub struct Shown {
    /// The coordinates.
    pub coords: Coords,
    /// The values of the attributes of the schema.
    pub row: Row,
}

/// Cells with their rows.
pub type ShownList = Sequence<Shown>;
