// The box as it is held: what is large lies in arrays that the host lends, what is small goes by value.
use super::Answer;
use config::{Profiles, Settings};
use control_line::places::Ends;
use poller::Query;
use report::summary::Summary;

// The box but for its lent arrays: the newest replies and the manager's table, a row for each PID, the clients' fresh
// marks, a row for each client's place, and the control line's places.
#[derive(Clone, Copy)]
pub struct Core {
    pub desk: desk::rest::Core,
    pub manager: manager::rows::Core,
    pub poller: poller::rest::Core,
    pub line: Ends,
    pub profiles: Profiles,
    pub settings: Settings,
    // the last accepted time
    pub time: u64,
}

// What stands beside an answer. The rates of a report are lent.
#[derive(Clone, Copy)]
pub struct Notes {
    pub lines: u8,
    pub lengths: [u8; 8],
    pub values: [u32; 6],
    pub notices: [bool; 6],
    pub query: Query,
    pub summary: Summary,
}

#[derive(Clone, Copy)]
pub struct Told {
    pub core: Core,
    pub answer: Answer,
    pub notes: Notes,
}
