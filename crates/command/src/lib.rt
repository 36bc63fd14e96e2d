// What the bytes of a client's command ask for: the command part of obd2.rs, with J1979 and the ELM327
// datasheet deciding what a mode 01 command is.
#![tactic(auto)]

ghost use Rattle.std.specs.Prelude.{◌≡◌};
ghost use Rattle.command.specs.Classify.{range_of, stripped, pid_of, command_of, values_of};

#[derive(Clone, Copy)]
pub enum Command {
    // one of the eight queries for the supported PIDs, 0 to 7
    Range(u8),
    // a PID, whose reading the cache has
    Pid(u8),
    // the answer is `?`
    Unknown,
}

const SUPPORTED_PID_QUERIES: [[u8; 4]; 8] = [
    *b"0100", *b"0120", *b"0140", *b"0160", *b"0180", *b"01A0", *b"01C0", *b"01E0",
];

// Which of the supported-PID queries cmd is.
fn supported_pids_index(cmd: &[u8]) -> Option<u8>
    ensures { result ≡ range_of cmd.now }
{
    let index = SUPPORTED_PID_QUERIES
        .iter()
        .position(|query| cmd.eq_ignore_ascii_case(query))?;
    Some(index as u8)
}

// A single digit after the pairs is the client's response count, which decides nothing here.
fn strip_response_count(cmd: &[u8]) -> &[u8]
    ensures { result.now ≡ stripped cmd.now }
{
    let n = cmd.len() - cmd.len() % 2;
    &cmd[..n]
}

fn wire_command_to_pid(cmd: &[u8]) -> Command
    ensures { result ≡ pid_of cmd.now }
{
    if cmd.len() < 4 {
        return Command::Unknown;
    }
    if !cmd.starts_with(b"01") {
        return Command::Unknown;
    }
    let Some(high) = ascii::hex_value(cmd[2]) else {
        return Command::Unknown;
    };
    let Some(low) = ascii::hex_value(cmd[3]) else {
        return Command::Unknown;
    };
    Command::Pid(high * 16 + low)
}

pub fn classify(cmd: &[u8]) -> Command
    ensures value { result ≡ command_of cmd.now }
    ensures result_value { values_of result ≡ values_of (command_of cmd.now) }
{
    let normalized = strip_response_count(cmd);
    match supported_pids_index(normalized) {
        Some(range) => Command::Range(range),
        None => wire_command_to_pid(normalized),
    }
}
