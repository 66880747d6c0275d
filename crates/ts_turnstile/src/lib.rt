//! One store for several lanes: each call is made in turn and entered in one journal.
//!
//! A lane makes its calls through a pass of its own. The proof of the turnstile is a rule over what
//! all passes have seen, which every atomic step keeps.
#![tactic(auto)]

mod calls;
mod closed;
mod lanes;
mod making;
mod pass;
mod plays;
mod rule;
mod slot;
mod told;
mod turn;
mod turnstile;
mod view;

pub use closed::Closed;
pub use pass::Pass;
pub use told::Told;
pub use turn::Turn;
pub use turnstile::Turnstile;
pub use view::{Opening, View};
