// The box's calls of the desk that also let the manager do maintenance: register, leave and response. A refused call
// leaves the box as it was. The time is not tested here: `dispatch::call` does that before, and is the box's door.
#![tactic(auto)]

mod leaving;
mod registering;
mod responding;

pub use leaving::leave;
pub use registering::register;
pub use responding::response;
