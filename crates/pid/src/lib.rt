// OBD2 PIDs and the SAE J1979 data-length table (pid.rs).
#![tactic(auto)]

ghost use Rattle.std.specs.Prelude.{◌≡◌};
ghost use Rattle.pid.specs.Lengths.{data_length_of};

// By PID; 0 stands for a length that is not known, since no PID has one of 0: a byte an entry, as document 02's A10 wants it.
const MODE01_PID_DATA_LENGTHS: [u8; 256] = [
    // 00 to 0F
    4, 4, 2, 2, 1, 1, 1, 1, 1, 1, 1, 1, 2, 1, 1, 1,
    // 10 to 1F
    2, 1, 1, 1, 2, 2, 2, 2, 2, 2, 2, 2, 1, 1, 1, 2,
    // 20 to 2F
    4, 2, 2, 2, 4, 4, 4, 4, 4, 4, 4, 4, 1, 1, 1, 1,
    // 30 to 3F
    1, 2, 2, 1, 4, 4, 4, 4, 4, 4, 4, 4, 2, 2, 2, 2,
    // 40 to 4F
    4, 4, 2, 2, 2, 1, 1, 1, 1, 1, 1, 1, 1, 2, 2, 4,
    // 50 to 5F
    4, 1, 1, 2, 2, 2, 2, 2, 2, 2, 1, 1, 1, 2, 2, 1,
    // 60 to 6F
    4, 1, 1, 2, 5, 2, 0, 0, 0, 0, 0, 0, 0, 0, 0, 0,
    // 70 to 7F
    0, 0, 0, 0, 0, 0, 0, 0, 0, 0, 0, 0, 0, 0, 0, 0,
    // 80 to 8F
    4, 0, 0, 0, 0, 0, 0, 0, 0, 0, 0, 0, 0, 0, 0, 0,
    // 90 to 9F
    0, 0, 0, 0, 0, 0, 0, 0, 0, 0, 0, 0, 0, 0, 0, 0,
    // A0 to AF
    4, 0, 0, 0, 0, 0, 0, 0, 0, 0, 0, 0, 0, 0, 0, 0,
    // B0 to BF
    0, 0, 0, 0, 0, 0, 0, 0, 0, 0, 0, 0, 0, 0, 0, 0,
    // C0 to CF
    4, 0, 0, 0, 0, 0, 0, 0, 0, 0, 0, 0, 0, 0, 0, 0,
    // D0 to DF
    0, 0, 0, 0, 0, 0, 0, 0, 0, 0, 0, 0, 0, 0, 0, 0,
    // E0 to EF
    0, 0, 0, 0, 0, 0, 0, 0, 0, 0, 0, 0, 0, 0, 0, 0,
    // F0 to FF
    0, 0, 0, 0, 0, 0, 0, 0, 0, 0, 0, 0, 0, 0, 0, 0,
];

// How many data bytes follow the service byte and the PID byte in a mode 01 reply line.
pub fn data_length(pid: u8) -> Option<u8>
    ensures { result ≡ data_length_of pid }
{
    let length = MODE01_PID_DATA_LENGTHS[pid as usize];
    if length == 0 {
        return None;
    }
    Some(length)
}
