// The poller's list of PIDs, as the Rust's IndexSet with its index: an array of 256 places with a length.
#![tactic(auto)]

ghost use Rattle.std.specs.Prelude.{◌≡◌, ◌==◌, ◌<◌};
ghost use Rattle.std.specs.List.{position};
ghost use Rattle.pid_list.specs.Rules.{size_of, wrap, empty_list, swap_out, append_of, fit_of, remove_of, set_of, next_of};

// The first `len` of `pids`, and the place that is polled next. A length above 256 counts as 256.
// An array with its count, since the box runs in fixed memory.
#[derive(Clone, Copy)]
pub struct PidList {
    pub pids: [u8; 256],
    pub len: usize,
    pub index: usize,
}

// What `next` answers: the list with its index moved, and the PID. An empty list has none.
#[derive(Clone, Copy)]
pub struct Picked {
    pub list: PidList,
    pub pid: Option<u8>,
}

#[tactic(auto, unfolding(crate::specs::Rules::empty_list))]
pub fn empty() -> PidList
    ensures { result ≡ empty_list }
{
    PidList {
        pids: [0u8; 256],
        len: 0,
        index: 0,
    }
}

// How many places count.
#[tactic(auto, unfolding(crate::specs::Rules::size_of))]
pub fn size(len: usize) -> usize
    ensures { result ≡ size_of len }
{
    len.min(256)
}

// An index within a list of n, 0 in an empty one.
#[tactic(auto, unfolding(crate::specs::Rules::wrap))]
fn wrapped(index: usize, n: usize) -> usize
    ensures { result ≡ wrap index n }
{
    if n == 0 { 0 } else { index % n }
}

// A PID as the row of a table of 256.
pub fn row(pid: u8) -> usize
    ensures { (result ≡ pid) × (result < 256) }
{
    pid as usize
}

// The first place of pid.
fn find(pids: &[u8], pid: u8) -> Option<usize>
    ensures { result ≡ position (λ x. x == pid) pids.now }
{
    pids.iter().position(|entry| *entry == pid)
}

// The last entry moves into pid's place. The index is not touched: `fit` follows once the list is as it is to be.
fn swap_remove(mut l: PidList, pid: u8) -> PidList
    ensures { result ≡ swap_out l pid }
{
    let n = size(l.len);
    l.len = n;
    if let Some(at) = find(&l.pids[..n], pid) {
        let last = n - 1;
        let moved = l.pids[last];
        l.pids[at] = moved;
        l.len = last;
    }
    l
}

// pid at the end; a full list stays as it is.
#[tactic(auto, unfolding(crate::specs::Rules::append_of))]
fn append(mut l: PidList, pid: u8) -> PidList
    ensures { result ≡ append_of l pid }
{
    let n = size(l.len);
    l.len = n;
    if n < 256 {
        l.pids[n] = pid;
        l.len = n + 1;
    }
    l
}

// The index reduced modulo the length.
#[tactic(auto, unfolding(crate::specs::Rules::fit_of))]
fn fit(mut l: PidList) -> PidList
    ensures { result ≡ fit_of l }
{
    l.index = wrapped(l.index, size(l.len));
    l
}

// The list without pid.
#[tactic(auto, unfolding(crate::specs::Rules::remove_of))]
pub fn remove(l: PidList, pid: u8) -> PidList
    ensures { result ≡ remove_of l pid }
{
    fit(swap_remove(l, pid))
}

// The list with pid at its end, wherever it stood before.
#[tactic(auto, unfolding(crate::specs::Rules::set_of))]
pub fn set(l: PidList, pid: u8) -> PidList
    ensures { result ≡ set_of l pid }
{
    fit(append(swap_remove(l, pid), pid))
}

// The PID at the index, which moves on by one and from the end to the start.
#[tactic(auto, unfolding(crate::specs::Rules::next_of))]
pub fn next(mut l: PidList) -> Picked
    ensures { result ≡ next_of l }
{
    let n = size(l.len);
    if n == 0 {
        return Picked { list: l, pid: None };
    }
    let at = wrapped(l.index, n);
    let pid = l.pids[at];
    l.index = wrapped(at + 1, n);
    Picked {
        list: l,
        pid: Some(pid),
    }
}
