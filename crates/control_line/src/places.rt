// The control line with its places lent: a message is a row of two numbers, its kind (0 fast, 1 slow, 2 removed) and its
// PID. Numbers and no enum, since a caller lends them, and may have written any.
ghost use Rattle.std.specs.Prelude.{◌≡◌};
ghost use Rattle.control.specs.Outbox.{messages};
ghost use Rattle.control_line.specs.Ring.{empty_line, push_of, push_all_of, take_of};
ghost use Rattle.control_line.specs.Rows.{row_of, message_in, slot_at, slots_of, unused_rows, line_of};

use config::PidPriority;
use control::DongleMessage;
use control::outbox::Outbox;

// How many messages the line holds.
pub const PLACES: usize = 1024;

// Where the messages begin, and how many they are. A count above 1,024 counts as 1,024.
#[derive(Clone, Copy)]
pub struct Ends {
    pub head: u16,
    pub count: u16,
}

// What is left of a line, and the message that was its first.
#[derive(Clone, Copy)]
pub struct Shorter {
    pub ends: Ends,
    pub taken: Option<DongleMessage>,
}

#[tactic(auto, unfolding(crate::specs::Rows::unused_rows))]
fn unused() -> [[u8; 2]; PLACES]
    ensures { result ≡ unused_rows }
{
    [[0u8; 2]; PLACES]
}

// A line without messages, whatever its places had.
pub fn clear(rows: &mut [[u8; 2]; PLACES]) -> Ends
    ensures { line_of rows.new result ≡ empty_line }
{
    *rows = unused();
    Ends { head: 0, count: 0 }
}

fn row_of(message: DongleMessage) -> [u8; 2]
    ensures { result ≡ row_of message }
{
    match message {
        DongleMessage::SetPidPriority(pid, priority) => match priority {
            PidPriority::Fast => [0, pid],
            PidPriority::Slow => [1, pid],
        },
        DongleMessage::RemovePid(pid) => [2, pid],
    }
}

// The message that a place has.
pub fn message_in(kind: u8, pid: u8) -> DongleMessage
    ensures { result ≡ message_in kind pid }
{
    if kind == 0 {
        return DongleMessage::SetPidPriority(pid, PidPriority::Fast);
    }
    if kind == 1 {
        return DongleMessage::SetPidPriority(pid, PidPriority::Slow);
    }
    DongleMessage::RemovePid(pid)
}

// The message behind the others; in a full line nothing changes.
fn push(rows: &mut [[u8; 2]; PLACES], mut ends: Ends, message: DongleMessage) -> Ends
    ensures { line_of rows.new result ≡ push_of (line_of rows.old ends) message }
{
    if ends.count < 1024 {
        let at = (ends.head as usize + ends.count as usize) % 1024;
        rows[at] = row_of(message);
        ends.count += 1;
    }
    ends
}

// The messages of one call, the first first.
pub fn push_all(rows: &mut [[u8; 2]; PLACES], mut ends: Ends, outbox: Outbox) -> Ends
    ensures { line_of rows.new result ≡ push_all_of (line_of rows.old ends) (messages outbox) }
{
    for message in &outbox.slots[..super::held(outbox.count)] {
        ends = push(rows, ends, *message);
    }
    ends
}

// The first message, out of the line.
pub fn take(rows: &[[u8; 2]; PLACES], mut ends: Ends) -> Shorter
    ensures ends_value { line_of rows.now result.ends ≡ (take_of (line_of rows.now ends)).line }
    ensures taken_value { result.taken ≡ (take_of (line_of rows.now ends)).taken }
{
    if ends.count == 0 {
        return Shorter { ends, taken: None };
    }
    let at = ends.head % 1024;
    let row = rows[at as usize];
    let message = message_in(row[0], row[1]);
    ends.head = (at + 1) % 1024;
    ends.count -= 1;
    Shorter {
        ends,
        taken: Some(message),
    }
}

// The rows of all places.
pub fn pack_all(slots: [DongleMessage; PLACES]) -> [[u8; 2]; PLACES]
    ensures { slots_of result ≡ slots }
{
    slots.map(row_of)
}

fn of_row(row: [u8; 2]) -> DongleMessage
    ensures { result ≡ slot_at row }
{
    message_in(row[0], row[1])
}

// What all places have.
pub fn unpack_all(rows: [[u8; 2]; PLACES]) -> [DongleMessage; PLACES]
    ensures { result ≡ slots_of rows }
{
    rows.map(of_row)
}
