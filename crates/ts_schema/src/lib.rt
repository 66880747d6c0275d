//! Frames and schemas: what an array is made of, how its schemas evolve, and the objects that spell
//! them.
#![tactic(auto)]

mod attrs;
mod checking;
mod evolution;
mod faults;
mod frame_reading;
mod frame_writing;
mod frames;
mod holding;
mod schema_reading;
mod schema_writing;
mod schemas;
mod showing;
mod spelling;
mod types;
mod wants;

pub use attrs::{Attr, AttrList, has_attr};
pub use checking::schema_fault;
pub use evolution::Evolution;
pub use faults::SchemaFault;
pub use frames::Frame;
pub use holding::schema_at;
pub use schema_reading::read_value;
pub use schemas::{Schema, SchemaList};
pub use showing::show_row;
pub use spelling::Spelling;
pub use ts_base::LabelList;
pub use ts_domain::Order;
pub use types::{read_type, write_type};
pub use wants::{Want, taken};
