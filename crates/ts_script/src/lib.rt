//! The front of the program: the words of a command line, scripts, and the objects of single
//! commands.
#![tactic(auto)]

mod cells;
mod commands;
mod fitting;
mod forms;
mod generator;
mod jobs;
mod lines;
mod options;
mod parts;
mod script;
mod tokens;
mod tree;
mod values;
mod words;

pub use forms::FormFault;
pub use generator::gen_script;
pub use jobs::read_lines;
pub use script::{ScriptFault, read_object, read_script};
pub use words::{Asked, ObjectForm, Report, read_words};
