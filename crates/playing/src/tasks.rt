// What a line asks for, told before what it brings is read.
use crate::answers::Answers;
use config::Settings;
use history_calls::Line;
use lines::{Fed, Reading};
use obd2::call::Call;
use std::io;
use std::io::Write;

// What a line asks for if the list that it brings is good, that list, and the line that is read now.
#[derive(Clone, Copy)]
pub struct Taken {
    pub reading: Reading,
    pub task: Task,
    pub list: Option<List>,
}

// `Nothing` where no line has ended, or one that has no answer.
#[derive(Clone, Copy)]
pub enum Task {
    Nothing,
    Bad,
    Show,
    Start(Starting),
    Call(Asked),
}

// What a line brings, as `history::brought` has it. It is read for the lines alone that bring something: no other has
// to carry it.
#[derive(Clone, Copy)]
pub enum List {
    StartProfiles,
    Profiles,
    Response,
    Session,
    Outcome,
}

// A call, its time, how many bytes its command has and how many the area that is lent to it.
#[derive(Clone, Copy)]
pub struct Asked {
    pub time: u64,
    pub call: Call,
    pub cmd: usize,
    pub area: usize,
}

// A start; its profiles are brought.
#[derive(Clone, Copy)]
pub struct Starting {
    pub time: u64,
    pub settings: Settings,
}

// A call without a command and an area.
fn bare(time: u64, call: Call) -> Task {
    Task::Call(Asked {
        time,
        call,
        cmd: 0,
        area: 0,
    })
}

// What a line asks for, if its list is good.
fn task_of(line: Line) -> Task {
    match line {
        Line::Show => Task::Show,
        Line::Call {
            time,
            call,
            cmd,
            area,
        } => Task::Call(Asked {
            time,
            call,
            cmd,
            area,
        }),
        Line::Start { time, settings } => Task::Start(Starting { time, settings }),
        Line::Profiles { time } => bare(time, Call::ProfilePidsChanged),
        Line::Response { time } => bare(time, Call::Response),
        Line::Connect { time } => bare(time, Call::Connect),
        Line::Result { time } => bare(time, Call::Result),
    }
}

// The list that a line brings, if it brings one.
fn list_of(line: Line) -> Option<List> {
    match line {
        Line::Start {
            time: _,
            settings: _,
        } => Some(List::StartProfiles),
        Line::Profiles { time: _ } => Some(List::Profiles),
        Line::Response { time: _ } => Some(List::Response),
        Line::Connect { time: _ } => Some(List::Session),
        Line::Result { time: _ } => Some(List::Outcome),
        _ => None,
    }
}

// A task that no list goes with.
fn alone(reading: Reading, task: Task) -> Taken {
    Taken {
        reading,
        task,
        list: None,
    }
}

// What a line asks for that has ended. One that is too long is no call.
fn read_line<A: Answers, W: Write>(
    line: &[u8],
    long: bool,
    bytes: &mut [u8],
    out: &mut A,
    writer: &mut W,
) -> io::Result<Taken> {
    let reading = lines::start();
    if !lines::answers(line) {
        return Ok(alone(reading, Task::Nothing));
    }
    out.make_room(writer)?;
    if long {
        return Ok(alone(reading, Task::Bad));
    }
    let Some(what) = history::parse(line, bytes) else {
        return Ok(alone(reading, Task::Bad));
    };
    Ok(Taken {
        reading,
        task: task_of(what),
        list: list_of(what),
    })
}

// What is to be done once a part of the input was read, of which `line` is the line.
pub(crate) fn take_line<A: Answers, W: Write>(
    fed: Fed,
    line: &[u8],
    bytes: &mut [u8],
    out: &mut A,
    writer: &mut W,
) -> io::Result<Taken> {
    let read = fed.reading;
    if !fed.ended {
        return Ok(alone(read, Task::Nothing));
    }
    read_line(line, read.long, bytes, out, writer)
}
