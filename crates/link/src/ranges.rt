// What the eight range queries brought, as rows of numbers: whether there is a reply, then the reply's own row. The connection's
// ranges are lent as such rows.
ghost use Rattle.std.specs.Prelude.{◌≡◌};
ghost use Rattle.link.specs.Ranges.{range_in, ranges_of, blank_ranges, behind_in, replies_in, replies_of};
ghost use Rattle.reply.specs.Rules.{reply_of};

use reply::Reply;
use reply::rows::ROW;

// The range queries, 0100 to 01E0.
pub const RANGES: usize = 8;

pub const RANGE_ROW: usize = 74;

// The row of what a range query brought.
fn pack_range(range: Option<Reply>) -> [u8; RANGE_ROW]
    ensures value { range_in result ≡ range }
    ensures behind { behind_in result ≡ reply_of range }
{
    let mut row = [0u8; RANGE_ROW];
    if let Some(reply) = range {
        let packed = reply::rows::pack(reply);
        row[0] = 1;
        base::copy(&packed, &mut row[1..]);
    }
    row
}

// What a range's row is, whatever numbers it has.
pub fn unpack_range(row: [u8; RANGE_ROW]) -> Option<Reply>
    ensures { result ≡ range_in row }
{
    if row[0] == 0 {
        return None;
    }
    let mut packed = [0u8; ROW];
    base::copy(&row[1..], &mut packed);
    Some(reply::rows::unpack(packed))
}

// The rows of ranges of which nothing is known.
#[tactic(auto, unfolding(crate::specs::Ranges::blank_ranges))]
pub fn blank() -> [[u8; RANGE_ROW]; RANGES]
    ensures { result ≡ blank_ranges }
{
    [[0u8; RANGE_ROW]; RANGES]
}

// The rows of all eight.
pub fn pack_all(ranges: [Option<Reply>; RANGES]) -> [[u8; RANGE_ROW]; RANGES]
    ensures value { ranges_of result ≡ ranges }
    ensures behind { replies_in result ≡ replies_of ranges }
{
    let mut rows = blank();
    for (i, range) in ranges.iter().enumerate() {
        rows[i] = pack_range(*range);
    }
    rows
}

// The ranges that the rows are.
pub fn unpack_all(rows: [[u8; RANGE_ROW]; RANGES]) -> [Option<Reply>; RANGES]
    ensures { result ≡ ranges_of rows }
{
    let mut ranges = super::no_ranges();
    for (i, row) in rows.iter().enumerate() {
        ranges[i] = unpack_range(*row);
    }
    ranges
}
