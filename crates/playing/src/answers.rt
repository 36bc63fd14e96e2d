// Where answers are put until they are written: behind a text, or into lent memory behind those that wait there.
ghost use Rattle.std.specs.Prelude.{◌≡◌, length};

use crate::{ANSWER, WAITING};
use obd2::rest::{Core, Told};
use poller::rest::POLLED;
use reply::Response;
use std::io;
use std::io::Write;
use writing::Text;

pub(crate) trait Answers {
    // Writes the answers that wait.
    fn flush<W: Write>(&mut self, writer: &mut W) -> io::Result<()>;

    // Makes room for one more answer.
    fn make_room<W: Write>(&mut self, writer: &mut W) -> io::Result<()>;

    fn bad_line(&mut self);

    fn show(
        &mut self,
        table: &[[u64; 8]; 256],
        slots: &[[u8; 2]; WAITING],
        polled: &[[u8; 256]; POLLED],
        core: Core,
    );

    // Puts the last answer behind those that wait.
    fn tell(
        &mut self,
        pids: &[u8; 256],
        rates: &[f32; 256],
        response: Response,
        last: Told,
        area: &[u8],
    )
        requires pids_len { length pids.now ≡ 256 }
        requires rates_len { length rates.now ≡ 256 };
}

impl<const N: usize> Answers for Text<N> {
    fn flush<W: Write>(&mut self, writer: &mut W) -> io::Result<()> {
        writer.write_all(self.as_slice())?;
        self.clear();
        Ok(())
    }

    fn make_room<W: Write>(&mut self, writer: &mut W) -> io::Result<()> {
        if self.room() < ANSWER {
            return self.flush(writer);
        }
        Ok(())
    }

    fn bad_line(&mut self) {
        history_answer::bad_line(self);
    }

    fn show(
        &mut self,
        table: &[[u64; 8]; 256],
        slots: &[[u8; 2]; WAITING],
        polled: &[[u8; 256]; POLLED],
        core: Core,
    ) {
        history_show::show(self, table, slots, polled, core);
    }

    fn tell(
        &mut self,
        pids: &[u8; 256],
        rates: &[f32; 256],
        response: Response,
        last: Told,
        area: &[u8],
    ) {
        let answer = last.answer;
        history_answer::answer(self, pids, rates, answer, last.notes, response, area);
    }
}

// Lent memory of any length: an answer is put together in the text and then behind those that wait, as far as there is room.
#[derive(Drop)]
pub(crate) struct Lent<'a> {
    pub(crate) out: &'a mut [u8],
    pub(crate) waiting: usize,
    pub(crate) text: Text<ANSWER>,
}

impl<'a> Lent<'a> {
    fn settle(&mut self) {
        self.waiting = writing::put(self.out, self.waiting, self.text.as_slice());
        self.text.clear();
    }
}

impl<'a> Answers for Lent<'a> {
    fn flush<W: Write>(&mut self, writer: &mut W) -> io::Result<()> {
        let n = self.waiting.min(self.out.len());
        writer.write_all(&self.out[..n])?;
        self.waiting = 0;
        Ok(())
    }

    fn make_room<W: Write>(&mut self, writer: &mut W) -> io::Result<()> {
        if self.out.len() - self.waiting.min(self.out.len()) < ANSWER {
            return self.flush(writer);
        }
        Ok(())
    }

    fn bad_line(&mut self) {
        self.text.bad_line();
        self.settle();
    }

    fn show(
        &mut self,
        table: &[[u64; 8]; 256],
        slots: &[[u8; 2]; WAITING],
        polled: &[[u8; 256]; POLLED],
        core: Core,
    ) {
        self.text.show(table, slots, polled, core);
        self.settle();
    }

    fn tell(
        &mut self,
        pids: &[u8; 256],
        rates: &[f32; 256],
        response: Response,
        last: Told,
        area: &[u8],
    ) {
        self.text.tell(pids, rates, response, last, area);
        self.settle();
    }
}
