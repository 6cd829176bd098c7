//! Teach-in: the role of a telegram in it, the profiles that can be learned, the plan for a sender in each mode, the
//! outcome, and the replies to queries. Nothing here needs memory.
#![tactic(auto)]

mod four_byte;
mod mode;
mod outcome;
mod planning;
mod plans;
mod profiles;
mod reply;
mod telegrams;
mod ute;
mod verdict;

pub use four_byte::{FourByteQuery, four_byte_reply};
pub use mode::Mode;
pub use outcome::Outcome;
pub use planning::{plan, plan_for};
pub use plans::Plan;
pub use profiles::supported;
pub use telegrams::{Teach, classify};
pub use ute::{UteQuery, ute_reply};
pub use verdict::Verdict;
