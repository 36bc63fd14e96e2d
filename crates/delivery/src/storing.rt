// What a response leaves at the desk: its replies in the lent rows, fresh for every registered client by the lent marks.
ghost use Rattle.std.specs.Prelude.{◌≡◌, length};
ghost use Rattle.clients.specs.Rules.{places};
ghost use Rattle.config.specs.declared.Profiles.{Profiles};
ghost use Rattle.desk.specs.Core.{desk_of};
ghost use Rattle.desk.specs.declared.rest.Core.{Core};
ghost use Rattle.delivery.specs.Rules.{response_of};
ghost use Rattle.delivery.specs.Storing.{Held};

use super::{listed, refuses};
use clients::PLACES;
use clients::seats::Seat;
use reply::Response;
use reply::rows::ROW;

// Each reply goes into its PID's row and is fresh for every registered client, in the response's order. A response that is
// refused changes nothing.
pub fn store(
    replies: &mut [[u8; ROW]; 256],
    marks: &mut [[bool; 256]; PLACES],
    clients: [Seat; PLACES],
    response: Response,
)
    requires { length marks.old ≡ places }
    ensures marks_len { length marks.new ≡ places }
    ensures held { (k : Core) (ps : Profiles) → k.clients ≡ clients → Held replies.new marks.new k (response_of (desk_of replies.old marks.old k) ps response).desk }
{
    if refuses(response) {
        return;
    }
    let n = listed(response.count);
    for i in 0..n {
        let pid = response.pids[i];
        let brought = response.replies[i];
        let row = pid_list::row(pid);
        let packed = reply::rows::pack(brought);
        replies[row] = packed;
        clients::seats::mark_all(marks, clients, pid);
    }
}
