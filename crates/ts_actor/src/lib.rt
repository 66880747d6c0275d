//! What the jobs of an array do: how the pieces are written and read, and the machines that make
//! their calls.
#![tactic(auto)]

mod actor;
mod driving;
mod ends;
mod gets;
mod known;
mod leases;
mod listing;
mod machine;
mod opened;
mod pieces;
mod plain_pieces;
mod seeking;

pub use actor::{Actor, Step};
pub use driving::drive;
pub use ends::{end_by, end_damaged};
pub use gets::{head_asked, schema_asked, vac_asked};
pub use known::{schema_among, search_schemas, wanted};
pub use listing::{counting_in, frags_in};
pub use machine::{Automaton, Machine, Phase};
pub use opened::{heads_of, opened_among};
pub use pieces::{Fetched, Pieces};
pub use plain_pieces::PlainPieces;
pub use seeking::{Works, ask_seeking, get_all, go_seeking, schemas_in};
pub use ts_model::Driven;
