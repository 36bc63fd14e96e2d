// The clients that are registered: eight places, each with a client's number, wait and fresh marks.
#![tactic(auto)]

pub mod seats;

ghost use Rattle.std.specs.Prelude.{◌≡◌};
ghost use Rattle.clients.specs.Rules.{newcomer};

// The most clients registered at one time.
pub const PLACES: usize = 8;

// What a client waits for: a PID, since a time.
#[derive(Clone, Copy)]
pub struct Wait {
    pub pid: u8,
    pub since: u64,
}

// A number of 0 is a free place. A client waits for one PID at a time. A mark says that a reply for the PID came that this client was not handed yet.
#[derive(Clone, Copy)]
pub struct Client {
    pub number: u32,
    pub wait: Option<Wait>,
    pub fresh: [bool; 256],
}

// A client that has just come: it waits for nothing, and no reply came for it yet. Number 0 makes a free place.
pub fn new(number: u32) -> Client
    ensures { result ≡ newcomer number }
{
    Client {
        number,
        wait: None,
        fresh: [false; 256],
    }
}
