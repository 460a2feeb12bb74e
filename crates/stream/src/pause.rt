// A short sleep, for a program that waits for more input. What the system's call does is assumed: no contract says that time passes.
ghost use Rattle.std.specs.Prelude.{◌<◌};
ghost use Rattle.std.specs.Duration.{as_nanos};

use std::rt::Clock;
use std::thread;
use std::time::Duration;

// Waits for the time asked, which is below a second, so the wait ends.
fn sleep(clock: &impl Clock, asked: Duration)
    requires { as_nanos asked < 1_000_000_000 }
{
    thread::sleep(clock, asked);
}

// Waits for about a hundredth of a second.
pub fn pause(clock: &impl Clock) {
    sleep(clock, Duration::from_millis(10));
}
