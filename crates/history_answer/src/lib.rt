// The answer lines of the box's calls, as history-format.md has them, written behind a text as far as there is room.
#![tactic(auto)]

ghost use Rattle.std.specs.Prelude.{◌≡◌, [], length};
ghost use Rattle.obd2.specs.Answer.{answer_of};
ghost use Rattle.obd2.specs.Core.{lent, details_of};
ghost use Rattle.poller.specs.Core.{held};
ghost use Rattle.writing.specs.Added.{Added};
ghost use Rattle.history_answer.specs.Texts.{answer_text, bad_text};

use obd2::Answer;
use obd2::rest::Notes;
use reply::Response;
use writing::Text;

// The answer line of a call, behind what is written. `delivered` is the response that the
// call brought, with a count of 0 for every other call; `area` is the lent area after the call, and `pids` and `rates`
// are the numbers of its report. No other lent array tells anything of it. 4,096 bytes have room for the whole of it.
pub fn answer<const N: usize>(
    out: &mut Text<N>,
    pids: &[u8; 256],
    rates: &[f32; 256],
    answer: Answer,
    notes: Notes,
    delivered: Response,
    area: &[u8],
)
    requires pids_len { length pids.now ≡ 256 }
    requires rates_len { length rates.now ≡ 256 }
    ensures { Added N out.old (answer_text (answer_of answer) (details_of (lent [] [] [] [] (held [] [] [] []) pids.now rates.now) notes) delivered area.now) out.new }
{
    history_said::said(out, answer, notes, delivered, area);
    let summary = notes.summary;
    history_report::report(out, pids, rates, summary);
    out.byte(b'\n');
}

// The answer to a line that does not follow the page.
pub fn bad_line<const N: usize>(out: &mut Text<N>)
    ensures { Added N out.old bad_text out.new }
{
    out.put(b"bad line\n");
}
