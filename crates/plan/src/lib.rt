// The plan of a multi round: which PIDs are asked together, and in which order (the Rust's
// partition_pids_by_ecu_count and its chunks). It is fixed when the round begins.
#![tactic(auto)]

ghost use Rattle.std.specs.Prelude.{◌≡◌, ◌≤◌};
ghost use Rattle.std.proofs.lemmas.List.Edits.{sets};
ghost use Rattle.pid_list.specs.Rules.{entries};
ghost use Rattle.plan.specs.Groups.{group_of, width_of};
ghost use Rattle.plan.specs.Steps.{plan_of, line_size, nearer_of, least_in, gather_of, take_of};

use pid_list::PidList;

// The PIDs of both lists, fast then slow, with what was known of each when the round began; and how far the
// round is: the group that is asked, and the place from which its PIDs are still to be asked.
// An array with its count, since the box runs in fixed memory.
#[derive(Clone, Copy)]
pub struct Plan {
    pub pids: [u8; 512],
    pub len: usize,
    pub counts: [u8; 256],
    pub known: [bool; 256],
    pub maxpids: u8,
    pub group: usize,
    pub at: usize,
}

// PIDs that are asked together: the first `count`. An array with its count, since the box runs in fixed memory.
#[derive(Clone, Copy)]
pub struct Chunk {
    pub pids: [u8; 6],
    pub count: usize,
}

#[derive(Clone, Copy)]
pub struct Gathered {
    pub chunk: Chunk,
    pub at: usize,
}

// What `take` answers: the plan without the chunk, and the chunk; an empty one when the plan is done.
#[derive(Clone, Copy)]
pub struct Taken {
    pub plan: Plan,
    pub chunk: Chunk,
}

// The group of the PIDs whose length or ECU count is not known. Every other group is an ECU count.
const REST: usize = 256;

// How many PIDs a query of a group takes.
#[tactic(auto, unfolding(crate::specs::Groups::width_of))]
fn width(maxpids: u8, group: usize) -> usize
    ensures { result ≡ width_of maxpids group }
{
    if group == REST {
        1
    } else {
        (maxpids as usize).clamp(2, 6)
    }
}

// A PID's group, from its ECU count and whether its length is known.
#[tactic(auto, unfolding(crate::specs::Groups::group_of))]
fn group(count: u8, known: bool) -> usize
    ensures { result ≡ group_of count known }
{
    if known && count != 0 {
        count as usize
    } else {
        REST
    }
}

// The list's PIDs, stored from the place `base` on.
fn add(mut pids: [u8; 512], base: usize, l: PidList) -> [u8; 512]
    requires { base ≤ 256 }
    ensures { result ≡ sets pids base (entries l) }
{
    let n = pid_list::size(l.len);
    base::copy(&l.pids[..n], &mut pids[base..]);
    pids
}

// The plan at a round's begin.
pub fn make(fast: PidList, slow: PidList, counts: [u8; 256], known: [bool; 256], max: u8) -> Plan
    ensures { result ≡ plan_of fast slow counts known max }
{
    let n = pid_list::size(fast.len);
    let m = pid_list::size(slow.len);
    let first = add([0u8; 512], 0, fast);
    let both = add(first, n, slow);
    Plan {
        pids: both,
        len: n + m,
        counts: counts,
        known: known,
        maxpids: max,
        group: 0,
        at: 0,
    }
}

// How many places of the plan count.
#[tactic(auto, unfolding(crate::specs::Steps::line_size))]
fn size(len: usize) -> usize
    ensures { result ≡ line_size len }
{
    len.min(512)
}

// The group g instead of `best` where it is nearer above `above`.
#[tactic(auto, unfolding(crate::specs::Steps::nearer_of))]
fn nearer(above: usize, g: usize, best: usize) -> usize
    ensures { result ≡ nearer_of above g best }
{
    if above < g && g < best { g } else { best }
}

// The least group above `above` that has a PID; 257 if there is none.
fn least(p: Plan, above: usize) -> usize
    ensures { result ≡ least_in p above }
{
    let mut best = 257;
    for pid in &p.pids[..size(p.len)] {
        let q = pid_list::row(*pid);
        let g = group(p.counts[q], p.known[q]);
        best = nearer(above, g, best);
    }
    best
}

// The PIDs of a group from a place on, as many as one query takes, and the place after the last of them.
fn gather(p: Plan, wanted: usize, from: usize) -> Gathered
    ensures { result ≡ gather_of p wanted from }
{
    let n = size(p.len);
    let w = width(p.maxpids, wanted);
    let mut pids = [0u8; 6];
    let mut count = 0;
    for i in from..n {
        let pid = p.pids[i];
        let q = pid_list::row(pid);
        let g = group(p.counts[q], p.known[q]);
        if g == wanted {
            pids[count] = pid;
            count += 1;
            if count == w {
                let full = Chunk { pids, count };
                return Gathered {
                    chunk: full,
                    at: i + 1,
                };
            }
        }
    }
    let chunk = Chunk { pids, count };
    Gathered {
        chunk,
        at: n.max(from),
    }
}

// The next chunk: of the group that is asked, or else of the next group that has a PID.
pub fn take(mut p: Plan) -> Taken
    ensures { result ≡ take_of p }
{
    let here = gather(p, p.group, p.at);
    let chunk = here.chunk;
    if chunk.count != 0 {
        p.at = here.at;
        return Taken {
            plan: p,
            chunk: chunk,
        };
    }
    let g = least(p, p.group);
    if REST < g {
        return Taken {
            plan: p,
            chunk: chunk,
        };
    }
    let there = gather(p, g, 0);
    let first = there.chunk;
    p.group = g;
    p.at = there.at;
    Taken {
        plan: p,
        chunk: first,
    }
}
