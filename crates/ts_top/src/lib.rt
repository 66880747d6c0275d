//! The top call: words and a script in, printed text and a status out. The commands of each lane are done
//! in a thread of its own.
#![tactic(auto)]

mod crew;
mod ends;
mod item;
mod items;
mod jobs;
mod notices;
mod queues;
mod results;
mod summaries;
mod texts;
mod tiled;
mod top;

pub use top::{Ran, run};
