// A reply of the dongle: one line for each control unit that answered, as the Rust's Lines.
#![tactic(auto)]

pub mod rows;

ghost use Rattle.std.specs.Prelude.{◌≡◌};
ghost use Rattle.reply.specs.Rules.{empty_reply, counted_of, total_of, within_of, size_of, filled_of, first_length_of};

// The most lines of a reply, and the most bytes of all its lines.
pub const MAX_LINES: usize = 8;

pub const MAX_BYTES: usize = 64;

// The most PIDs of a response.
pub const MAX_PIDS: usize = 6;

// The first `lines` of `lengths` are the lines' lengths, and the lines stand one after the other from the
// start of `bytes`. Every value has a meaning, so no two parts can contradict each other: a `lines` above
// MAX_LINES, or lengths that come to more than MAX_BYTES, is a reply over the limits of document 01. Arrays with their counts, since
// the box runs in fixed memory.
#[derive(Clone, Copy)]
pub struct Reply {
    pub lines: u8,
    pub lengths: [u8; MAX_LINES],
    pub bytes: [u8; MAX_BYTES],
}

// What one response of the dongle brings: the first `count` of `pids`, each with its reply. An array with its count, since the box
// runs in fixed memory.
#[derive(Clone, Copy)]
pub struct Response {
    pub count: u8,
    pub pids: [u8; MAX_PIDS],
    pub replies: [Reply; MAX_PIDS],
}

// A reply without lines.
pub fn empty() -> Reply
    ensures { result ≡ empty_reply }
{
    Reply {
        lines: 0,
        lengths: [0u8; MAX_LINES],
        bytes: [0u8; MAX_BYTES],
    }
}

// How many lines have a length: a reply over the limit is read as far as its array goes.
#[tactic(auto, unfolding(crate::specs::Rules::counted_of))]
fn counted(lines: u8) -> usize
    ensures { result ≡ counted_of lines }
{
    (lines as usize).min(MAX_LINES)
}

// The bytes of all lines together.
#[tactic(auto, using(crate::specs::Laws::counted_le))]
fn total(r: Reply) -> usize
    ensures { result ≡ total_of r }
{
    let mut sum = 0;
    for length in &r.lengths[..counted(r.lines)] {
        sum += usize::from(*length);
    }
    sum
}

// Whether a reply keeps to the limits.
#[tactic(auto, unfolding(crate::specs::Rules::within_of))]
pub fn within(r: Reply) -> bool
    ensures { result ≡ within_of r }
{
    r.lines as usize <= MAX_LINES && total(r) <= MAX_BYTES
}

// How many bytes a reply fills: those of its lines, as far as they are kept.
#[tactic(auto, unfolding(crate::specs::Rules::size_of))]
pub fn size(r: Reply) -> usize
    ensures { result ≡ size_of r }
{
    total(r).min(MAX_BYTES)
}

// The lines, joined, at the start of a lent area. An area that is too short is left as it is.
pub fn copy(r: Reply, area: &mut [u8])
    ensures { area.new ≡ filled_of r area.old }
{
    let n = size(r);
    if n <= area.len() {
        base::copy(&r.bytes[..n], area);
    }
}

// The length of the first line, 0 where there is none.
#[tactic(auto, unfolding(crate::specs::Rules::first_length_of, crate::specs::Rules::lengths_of))]
pub fn first_length(r: Reply) -> u8
    ensures { result ≡ first_length_of r }
{
    if r.lines == 0 { 0 } else { r.lengths[0] }
}
