// The refusals of document 01's numbered table, as an enum.
#![tactic(auto)]

ghost use Rattle.std.specs.Prelude.{◌≡◌, ◌≢◌, ◌≤◌};
ghost use Rattle.refusal.specs.Number.{number_of};

// Why a call is refused: a variant for each number, in the table's order. 16 comes from document 02's A3.
#[derive(Clone, Copy, PartialEq, Eq, Debug)]
pub enum Refusal {
    // 1: before the last accepted time, or too late
    BadTime,
    // 2: over 16 profiles, two active normal ones, or an unknown kind, mode, priority or capture type
    UnknownKind,
    // 3: a response over 6 PIDs or with PIDs not rising, or a reply over 8 lines or 64 bytes
    BadResponse,
    // 4: Consumed with too long a wait, or with the counts of hits and misses full
    BadConsumed,
    // 5: capture data over 65,535 bytes
    LongCapture,
    // 6: every client number has been given
    NumbersGiven,
    // 7: 8 clients are registered
    ClientsFull,
    // 8: a client that is not registered
    UnknownClient,
    // 9: an ask to the cache while that client waits
    AlreadyWaiting,
    // 10: collect or give up with nothing waiting
    NothingWaiting,
    // 11: collect before a reply came
    NoReply,
    // 12: what needs a closed round, while one is open
    RoundOpen,
    // 13: next with no round open or a result due, or a result with none due
    OutOfTurn,
    // 14: a lent area that is shorter than the answer needs
    ShortArea,
    // 15: more control messages than free places
    LineFull,
    // 16: a capture's header that is too short, or of another kind
    BadHeader,
}

impl Refusal {
    // Document 01's number.
    pub fn number(self) -> u8
        ensures { result ≡ number_of self }
    {
        match self {
            Refusal::BadTime => 1,
            Refusal::UnknownKind => 2,
            Refusal::BadResponse => 3,
            Refusal::BadConsumed => 4,
            Refusal::LongCapture => 5,
            Refusal::NumbersGiven => 6,
            Refusal::ClientsFull => 7,
            Refusal::UnknownClient => 8,
            Refusal::AlreadyWaiting => 9,
            Refusal::NothingWaiting => 10,
            Refusal::NoReply => 11,
            Refusal::RoundOpen => 12,
            Refusal::OutOfTurn => 13,
            Refusal::ShortArea => 14,
            Refusal::LineFull => 15,
            Refusal::BadHeader => 16,
        }
    }

    // The refusal of a number of the table. A number that the table does not have is told as its last row.
    pub fn numbered(number: u8) -> Refusal
        ensures { (number ≢ 0) → (number ≤ 16) → number_of result ≡ number }
    {
        match number {
            1 => Refusal::BadTime,
            2 => Refusal::UnknownKind,
            3 => Refusal::BadResponse,
            4 => Refusal::BadConsumed,
            5 => Refusal::LongCapture,
            6 => Refusal::NumbersGiven,
            7 => Refusal::ClientsFull,
            8 => Refusal::UnknownClient,
            9 => Refusal::AlreadyWaiting,
            10 => Refusal::NothingWaiting,
            11 => Refusal::NoReply,
            12 => Refusal::RoundOpen,
            13 => Refusal::OutOfTurn,
            14 => Refusal::ShortArea,
            15 => Refusal::LineFull,
            _ => Refusal::BadHeader,
        }
    }
}
