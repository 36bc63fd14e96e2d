// The clients' places, each with its number and wait, by value; their fresh marks are lent, a row for each place.
ghost use Rattle.std.specs.Prelude.{Bool, List, [], map, ◌≡◌, ◌==◌, length, position};
ghost use Rattle.clients.specs.Rules.{places, place_of, seat_of, marked_of, waiting_of, idled_of};
ghost use Rattle.clients.specs.Seats.{Found, seated, seat_in, marks_in, new_seat, no_marks, clients_of, vacant_seats, blank_marks, nobodies};

use super::{Client, PLACES, Wait};

// A number of 0 is a free place.
#[derive(Clone, Copy)]
pub struct Seat {
    pub number: u32,
    pub wait: Option<Wait>,
}

// A place that has just been given: its client waits for nothing. Number 0 makes a free place.
pub fn new(number: u32) -> Seat
    ensures { result ≡ new_seat number }
{
    Seat { number, wait: None }
}

// The marks of a client for which no reply came yet.
pub fn unmarked() -> [bool; 256]
    ensures { result ≡ no_marks }
{
    [false; 256]
}

// The first place of a number, if it has one.
pub fn place(seats: [Seat; PLACES], number: u32) -> Option<usize>
    ensures { Found (place_of (clients_of [] seats) number) result }
{
    first(&seats, number)
}

// The first place that has the number.
fn first(seats: &[Seat], number: u32) -> Option<usize>
    ensures { result ≡ position (λ s. s.number == number) seats.now }
{
    seats.iter().position(|seat| seat.number == number)
}

// The place of a registered client, if it is one: a client has a number from 1 on.
pub fn find(seats: [Seat; PLACES], number: u32) -> Option<usize>
    ensures { Found (seat_of (clients_of [] seats) number) result }
{
    if number == 0 {
        return None;
    }
    place(seats, number)
}

// A reply for the PID came for every registered client.
pub fn mark_all(marks: &mut [[bool; 256]; PLACES], seats: [Seat; PLACES], pid: u8)
    requires { length marks.old ≡ places }
    ensures marks_len { length marks.new ≡ places }
    ensures seats_after { clients_of marks.new seats ≡ map (marked_of pid) (clients_of marks.old seats) }
{
    let at = pid as usize;
    for (i, seat) in seats.iter().enumerate() {
        if seat.number != 0 {
            marks[i][at] = true;
        }
    }
}

// The client waits for the PID from now on.
pub fn begin_wait(mut seat: Seat, pid: u8, time: u64) -> Seat
    ensures { (marks : List Bool) → seated marks result ≡ waiting_of pid time (seated marks seat) }
{
    seat.wait = Some(Wait { pid, since: time });
    seat
}

// The client waits for nothing any more. What is fresh for it stays so.
pub fn end_wait(mut seat: Seat) -> Seat
    ensures { (marks : List Bool) → seated marks result ≡ idled_of (seated marks seat) }
{
    seat.wait = None;
    seat
}

// Places with nobody in them.
pub fn vacant() -> [Seat; PLACES]
    ensures { result ≡ vacant_seats }
{
    let free = new(0);
    [free; PLACES]
}

// The marks of no client.
pub fn blank() -> [[bool; 256]; PLACES]
    ensures { result ≡ blank_marks }
{
    let row = unmarked();
    [row; PLACES]
}

// The places of the clients, but for their marks.
pub fn seats_of(clients: [Client; PLACES]) -> [Seat; PLACES]
    ensures { result ≡ map seat_in clients }
{
    clients.map(
        |client: Client| -> Seat
            ensures { result ≡ seat_in client }
        {
            Seat {
                number: client.number,
                wait: client.wait,
            }
        },
    )
}

// The clients' marks, a row for each place.
pub fn marks_of(clients: [Client; PLACES]) -> [[bool; 256]; PLACES]
    ensures { result ≡ map marks_in clients }
{
    clients.map(
        |client: Client| -> [bool; 256]
            ensures { result ≡ marks_in client }
        { client.fresh },
    )
}

fn nobodies() -> [Client; PLACES]
    ensures { result ≡ nobodies }
{
    let free = super::new(0);
    [free; PLACES]
}

// The clients that marks and places are.
pub fn clients_of(marks: [[bool; 256]; PLACES], seats: [Seat; PLACES]) -> [Client; PLACES]
    ensures { result ≡ clients_of marks seats }
{
    let mut clients = nobodies();
    for (i, seat) in seats.iter().enumerate() {
        clients[i] = Client {
            number: seat.number,
            wait: seat.wait,
            fresh: marks[i],
        };
    }
    clients
}
