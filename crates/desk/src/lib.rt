// The desk's state: the clients, and the newest reply of each PID.
#![tactic(auto)]

pub mod rest;

use clients::Client;
use reply::Reply;

// Each response goes to every registered client, so the newest reply of a PID stands once, for all of them;
// each client's marks say whether that client was handed it. The engine's revs (the Rust's shared_rpm) are there once a
// reply for PID 0Ch came.
#[derive(Clone, Copy)]
pub struct Desk {
    pub clients: [Client; clients::PLACES],
    pub store: [Reply; 256],
    pub given: u32,
    pub revs: Option<u32>,
}

// The number is 0 where the call is refused.
#[derive(Clone, Copy)]
pub struct Registered {
    pub desk: Desk,
    pub refusal: u8,
    pub number: u32,
}
