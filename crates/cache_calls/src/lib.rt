// The box's calls of the client cache: ask, collect and give up. A refused one leaves the box as it was: what the desk hands
// back then is the desk as it stood.
// The time is not tested here: `dispatch::call` does that before, and is the box's door.
#![tactic(auto)]

mod asking;
mod collecting;
mod giving_up;

pub use asking::ask;
pub use collecting::collect;
pub use giving_up::give_up;
