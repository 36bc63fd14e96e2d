// Lists written behind a text, parted by commas, as far as there is room.
#![tactic(auto)]

ghost use Rattle.std.specs.Prelude.{◌≡◌};
ghost use Rattle.writing.specs.Added.{Added};
ghost use Rattle.writing_lists.specs.Parted.{comma_text, none_text, pids_text, numbers_text};

use writing::Text;

// A comma, where something stands before it.
pub fn comma<const N: usize>(out: &mut Text<N>, more: bool)
    ensures { Added N out.old (comma_text more) out.new }
{
    if more {
        out.byte(b',');
    }
}

// `-`, where a list turned out to have nothing in it.
pub fn none<const N: usize>(out: &mut Text<N>, some: bool)
    ensures { Added N out.old (none_text some) out.new }
{
    if !some {
        out.byte(b'-');
    }
}

// PIDs parted by commas, `-` for none.
pub fn pids<const N: usize>(out: &mut Text<N>, pids: &[u8])
    ensures { Added N out.old (pids_text pids.now) out.new }
{
    let mut more = false;
    for pid in pids {
        comma(out, more);
        writing_pairs::pair(out, *pid);
        more = true;
    }
    none(out, more);
}

// Numbers parted by commas, `-` for none.
pub fn numbers<const N: usize>(out: &mut Text<N>, numbers: &[u8])
    ensures { Added N out.old (numbers_text numbers.now) out.new }
{
    let mut more = false;
    for number in numbers {
        comma(out, more);
        out.number(u64::from(*number));
        more = true;
    }
    none(out, more);
}
