// What a line says behind its word and its time: history-format.md, "Calls of the box". A line that brings a list is
// told first; what it brings is read after that, by `bringing`. A line that does not follow the page is none.
#![tactic(auto)]

ghost use Rattle.std.specs.Prelude.{◌≡◌, length};
ghost use Rattle.history_items.specs.Items.{items_of};
ghost use Rattle.history_calls.specs.Timed.{timed_line, timed_bytes};

use config::Settings;
use history_words::Word;
use obd2::call::Call;

// the lines that bring a list, and those that bring none
pub mod bringing;
mod plain;

#[derive(Clone, Copy)]
pub enum Line {
    Show,
    // the bytes of a command that stand at the start of the lent bytes, and the bytes that the lent area has
    Call {
        time: u64,
        call: Call,
        cmd: usize,
        area: usize,
    },
    // Those that bring a list, which is yet to be read and may make the line bad: profiles behind the settings,
    // profiles, replies, a session behind the 1, and an outcome.
    Start {
        time: u64,
        settings: Settings,
    },
    Profiles {
        time: u64,
    },
    Response {
        time: u64,
    },
    Connect {
        time: u64,
    },
    Result {
        time: u64,
    },
}

// What a line says behind its word and its time.
#[tactic(auto, unfolding(crate::specs::Timed::timed_line, crate::specs::Timed::timed_bytes))]
pub fn timed(word: Word, time: u64, rest: &[u8], bytes: &mut [u8]) -> Option<Line>
    ensures value { result ≡ timed_line (length bytes.old) time (items_of 32 rest.now) word }
    ensures bytes_after { bytes.new ≡ timed_bytes bytes.old (items_of 32 rest.now) word }
{
    match word {
        Word::Bare(call) => plain::alone(time, call, rest),
        Word::Outcome => Some(Line::Result { time }),
        Word::Response => Some(Line::Response { time }),
        Word::Ask => plain::ask(time, rest, bytes),
        Word::Collect => plain::collect(time, rest),
        Word::Waiting => plain::waiting(time, rest),
        Word::Consumed => plain::consumed(time, rest),
        Word::Leave => plain::leave(time, rest),
        Word::GiveUp => plain::give_up(time, rest),
        Word::Profiles => Some(Line::Profiles { time }),
        Word::Settings => plain::set_settings(time, rest),
        Word::Connect => bringing::connect(time, rest),
        Word::Start => bringing::start(time, rest),
    }
}
