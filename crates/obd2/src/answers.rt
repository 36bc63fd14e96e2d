// The tests of refusals 1 and 15, each made in one place.
ghost use Rattle.std.specs.Prelude.{◌≡◌};
ghost use Rattle.obd2.specs.Refusals.{bad_time, exceeds};

// The last time that the box takes: up to it the rates are exact enough.
const LATEST: u64 = 16777215999;

// Refusal 1: the time is before the last accepted one, or too late.
pub fn bad_time(last: u64, time: u64) -> bool
    ensures { result ≡ bad_time last time }
{
    time < last || LATEST < time
}

// Refusal 15: with so many control messages waiting, the line has no room for those of the call.
pub fn crowded(waiting: u16, sent: u16) -> bool
    ensures { result ≡ exceeds waiting sent }
{
    control_line::free(waiting) < sent
}
