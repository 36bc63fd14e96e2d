// The desk but for what is lent: the newest replies, a row for each PID, and the clients' fresh marks, a row for each
// place.
ghost use Rattle.std.specs.Prelude.{Bool, List, ◌≡◌, ℕ, length};
ghost use Rattle.clients.specs.Rules.{places};
ghost use Rattle.desk.specs.Rules.{start_desk, register_refusal, register_of, leave_of};
ghost use Rattle.desk.specs.Core.{desk_of};

use clients::PLACES;
use clients::seats::Seat;
use reply::rows::ROW;

// The most client numbers that are given, from 1 on.
const MOST_NUMBERS: u32 = 4294967294;

#[derive(Clone, Copy)]
pub struct Core {
    pub clients: [Seat; PLACES],
    pub given: u32,
    pub revs: Option<u32>,
}

// The desk before any call, whatever its arrays had.
pub fn start(replies: &mut [[u8; ROW]; 256], marks: &mut [[bool; 256]; PLACES]) -> Core
    ensures marks_len { length marks.new ≡ places }
    ensures result_after { desk_of replies.new marks.new result ≡ start_desk }
{
    *replies = reply::rows::blank();
    *marks = clients::seats::blank();
    let vacant = clients::seats::vacant();
    Core {
        clients: vacant,
        given: 0,
        revs: None,
    }
}

// What a new client is refused for: no number is left (6), no place is free (7); 0 where it is not.
pub fn refusal(core: Core) -> u8
    ensures { (replies : List (List ℕ)) (marks : List (List Bool)) → result ≡ register_refusal (desk_of replies marks core) }
{
    if core.given >= MOST_NUMBERS {
        return 6;
    }
    match clients::seats::place(core.clients, 0) {
        Some(_) => 0,
        None => 7,
    }
}

// A new client gets the next number and the lowest free place. One that is refused changes nothing.
pub fn register(marks: &mut [[bool; 256]; PLACES], mut core: Core) -> Core
    requires { length marks.old ≡ places }
    ensures marks_len { length marks.new ≡ places }
    ensures by_index { (replies : List (List ℕ)) → desk_of replies marks.new result ≡ (register_of (desk_of replies marks.old core)).desk }
{
    if core.given >= MOST_NUMBERS {
        return core;
    }
    let Some(at) = clients::seats::place(core.clients, 0) else {
        return core;
    };
    let number = core.given + 1;
    let newcomer = clients::seats::new(number);
    core.clients[at] = newcomer;
    core.given = number;
    let blank = clients::seats::unmarked();
    marks[at] = blank;
    core
}

// The client's place is free again. A number that nobody has takes nobody out.
pub fn leave(marks: &mut [[bool; 256]; PLACES], mut core: Core, number: u32) -> Core
    requires { length marks.old ≡ places }
    ensures marks_len { length marks.new ≡ places }
    ensures by_index { (replies : List (List ℕ)) → desk_of replies marks.new result ≡ leave_of (desk_of replies marks.old core) number }
{
    let Some(at) = clients::seats::find(core.clients, number) else {
        return core;
    };
    let free = clients::seats::new(0);
    core.clients[at] = free;
    let blank = clients::seats::unmarked();
    marks[at] = blank;
    core
}
