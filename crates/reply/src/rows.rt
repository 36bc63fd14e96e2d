// A reply as a row of numbers: its line count, the lines' lengths, the bytes. The newest replies are lent as such rows.
ghost use Rattle.std.specs.Prelude.{◌≡◌, ◌+◌, ◌≤◌, length};
ghost use Rattle.base.specs.Write.{over};
ghost use Rattle.reply.specs.Rows.{row_size, reply_in, blank_rows, unknown_replies, store_of};

use super::{MAX_BYTES, MAX_LINES, Reply};

// Where the bytes begin, and how long a row is.
const BYTES_AT: usize = 9;

pub const ROW: usize = 73;

// A row with a text in it, from a place on.
fn put(mut row: [u8; ROW], at: usize, text: &[u8]) -> [u8; ROW]
    requires { at + length text.now ≤ row_size }
    ensures { result ≡ over row at text.now }
{
    base::copy(text, &mut row[at..]);
    row
}

// The row of a reply.
pub fn pack(reply: Reply) -> [u8; ROW]
    ensures { reply_in result ≡ reply }
{
    let lengths = reply.lengths;
    let text = reply.bytes;
    let mut row = [0u8; ROW];
    row[0] = reply.lines;
    let measured = put(row, 1, &lengths);
    put(measured, BYTES_AT, &text)
}

// The reply that a row is. Every row is one.
pub fn unpack(row: [u8; ROW]) -> Reply
    ensures { result ≡ reply_in row }
{
    let mut lengths = [0u8; MAX_LINES];
    base::copy(&row[1..BYTES_AT], &mut lengths);
    let mut text = [0u8; MAX_BYTES];
    base::copy(&row[BYTES_AT..], &mut text);
    Reply {
        lines: row[0],
        lengths: lengths,
        bytes: text,
    }
}

// The rows of no reply for any PID.
#[tactic(auto, unfolding(crate::specs::Rows::blank_rows))]
pub fn blank() -> [[u8; ROW]; 256]
    ensures { result ≡ blank_rows }
{
    [[0u8; ROW]; 256]
}

// The rows of all PIDs' replies.
pub fn pack_all(store: [Reply; 256]) -> [[u8; ROW]; 256]
    ensures { store_of result ≡ store }
{
    let mut rows = blank();
    for (i, reply) in store.iter().enumerate() {
        rows[i] = pack(*reply);
    }
    rows
}

#[tactic(auto, unfolding(crate::specs::Rows::unknown_replies))]
fn unknown() -> [Reply; 256]
    ensures { result ≡ unknown_replies }
{
    let nothing = super::empty();
    [nothing; 256]
}

// The replies that the rows of all PIDs are.
pub fn unpack_all(rows: [[u8; ROW]; 256]) -> [Reply; 256]
    ensures { result ≡ store_of rows }
{
    let mut store = unknown();
    for (i, row) in rows.iter().enumerate() {
        store[i] = unpack(*row);
    }
    store
}
