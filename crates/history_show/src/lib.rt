// The line that `show` answers, as history-format.md has it, written behind a text as far as there is room: the
// last accepted time, the poller's lists, the manager's table, the control line, the revs.
#![tactic(auto)]

ghost use Rattle.std.specs.Prelude.{◌≡◌, length};
ghost use Rattle.control_line.specs.Rows.{line_of};
ghost use Rattle.obd2.specs.Core.{Lent, box_of};
ghost use Rattle.pid_table.specs.Rows.{info_of, table_of};
ghost use Rattle.writing.specs.Added.{Added};
ghost use Rattle.history_show.specs.Texts.{letter_of, list_text, pin_text, entry_text, table_text, message_text, line_text, revs_text, show_text, added_text};
ghost use Rattle.history_show.specs.Short.{with_shown};

use config::PidPriority;
use control::DongleMessage;
use control_line::places::{Ends, PLACES};
use obd2::rest::Core;
use pid_list::PidList;
use pid_table::PidInfo;
use poller::rest::POLLED;
use writing::Text;

// The letter of a speed.
fn letter(priority: PidPriority) -> u8
    ensures { result ≡ letter_of priority }
{
    match priority {
        PidPriority::Fast => b'f',
        PidPriority::Slow => b's',
    }
}

// A list's index, and its PIDs.
fn list<const N: usize>(out: &mut Text<N>, list: PidList)
    ensures { Added N out.old (list_text list) out.new }
{
    let n = pid_list::size(list.len);
    let pids = list.pids;
    out.byte(b' ');
    out.number(list.index as u64);
    out.byte(b' ');
    writing_lists::pids(out, &pids[..n]);
}

// `+`, where a PID is pinned.
fn pin<const N: usize>(out: &mut Text<N>, pinned: bool)
    ensures { Added N out.old (pin_text pinned) out.new }
{
    if pinned {
        out.byte(b'+');
    }
}

// A PID of the table.
fn entry<const N: usize>(out: &mut Text<N>, pid: u8, info: PidInfo)
    ensures { Added N out.old (entry_text pid info) out.new }
{
    writing_pairs::pair(out, pid);
    let priority = info.priority;
    out.byte(letter(priority));
    pin(out, info.pinned);
}

// The entry that a row is, where its PID is in the table, parted from those before; nothing where it is not.
fn tracked<const N: usize>(out: &mut Text<N>, more: bool, pid: u8, row: [u64; 8])
    ensures { Added N out.old (added_text more pid (info_of row)) out.new }
{
    if row[0] == 0 {
        return;
    }
    let info = pid_table::rows::unpack(row);
    writing_lists::comma(out, more);
    entry(out, pid, info);
}

// The PIDs of the table, rising.
fn entries<const N: usize>(out: &mut Text<N>, table: &[[u64; 8]; 256])
    requires { length table.now ≡ 256 }
    ensures { Added N out.old (table_text (table_of table.now)) out.new }
{
    out.byte(b' ');
    let mut more = false;
    for i in 0..256usize {
        let row = table[i];
        tracked(out, more, i as u8, row);
        more |= row[0] != 0;
    }
    writing_lists::none(out, more);
}

// A control message that waits.
fn message<const N: usize>(out: &mut Text<N>, message: DongleMessage)
    ensures { Added N out.old (message_text message) out.new }
{
    match message {
        DongleMessage::SetPidPriority(pid, priority) => {
            writing_pairs::pair(out, pid);
            out.byte(letter(priority));
        }
        DongleMessage::RemovePid(pid) => {
            writing_pairs::pair(out, pid);
            out.byte(b'x');
        }
    }
}

// The control messages that wait, in order.
fn line<const N: usize>(out: &mut Text<N>, slots: &[[u8; 2]; PLACES], ends: Ends)
    ensures { Added N out.old (line_text (line_of slots.now ends)) out.new }
{
    let n = base::least(ends.count as usize, 1024);
    let head = ends.head as usize;
    out.byte(b' ');
    let mut more = false;
    for i in 0..n {
        let row = slots[(head + i) % 1024];
        let next = control_line::places::message_in(row[0], row[1]);
        writing_lists::comma(out, more);
        message(out, next);
        more = true;
    }
    writing_lists::none(out, more);
}

// The stored revs, `-` where none are known.
fn revs<const N: usize>(out: &mut Text<N>, revs: Option<u32>)
    ensures { Added N out.old (revs_text revs) out.new }
{
    out.byte(b' ');
    match revs {
        Some(value) => out.number(u64::from(value)),
        None => out.byte(b'-'),
    }
}

// The line, behind what is written. The table, the control line's places and the poller's lists are
// lent, and of the other lent arrays nothing is shown. 8,192 bytes have room for the whole of it.
pub fn show<const N: usize>(
    out: &mut Text<N>,
    table: &[[u64; 8]; 256],
    slots: &[[u8; 2]; PLACES],
    polled: &[[u8; 256]; POLLED],
    core: Core,
)
    requires { length table.now ≡ 256 }
    ensures { (x : Lent) → Added N out.old (show_text (box_of (with_shown x table.now slots.now polled.now) core)) out.new }
{
    out.put(b"show ");
    out.number(core.time);
    let fast = poller::rest::fast(polled, core.poller.fast);
    list(out, fast);
    let slow = poller::rest::slow(polled, core.poller.slow);
    list(out, slow);
    entries(out, table);
    let ends = core.line;
    line(out, slots, ends);
    let known = core.desk.revs;
    revs(out, known);
    out.byte(b'\n');
}
