//! The model: commands, jobs, outcomes, and the definitions that say what each must be.
//!
//! The definitions stand in `specs/`. A history is a list of deeds, and a read is answered by looking
//! for the last write of each cell in it; a store keeps objects, and stands for a history.
#![tactic(auto)]

mod answers;
mod blobs;
mod checking;
mod commands;
mod deeds;
mod deletions;
mod fields;
mod finding;
mod merging;
mod places;
mod queries;
mod scan;
mod selection;
mod states;

pub use answers::{Answer, Driven, Outcome, Refusal, TypeList};
pub use blobs::blob_bytes;
pub use checking::{bound_outside, box_of, check_delete, check_query, over_most, unknown_dim};
pub use commands::{ColIn, ColInList, Command, FrameIn, Job, JobList, Line, LineList, WriteIn};
pub use deeds::{Deed, Deletion, DeletionList, History, Written};
pub use fields::{attr_fields, fields_in};
pub use merging::VersionPlace;
pub use places::{GlobalPlace, place_in, place_of};
pub use queries::{PlaceList, QueryFault, Ready, Shown, ShownList};
pub use scan::reference;
pub use selection::{fills_of, rows_of, types_shown};
pub use states::{
    Candidates, Collecting, Creating, Listed, Merging, NameLists, NewObject, NewObjectList, Opened,
    OpenedList, Reading, Seeking, Stage, State, Survey, Sweep, Sweeping,
};
