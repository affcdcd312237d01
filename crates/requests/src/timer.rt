//! When a request goes out again.
ghost use Rattle.std.specs.Prelude.{◌≡◌, ◌+◌, ◌<◌, ◌^◌};
ghost use Rattle.std.specs.Option.{SomeIff};
ghost use Rattle.requests.specs.Timers.{IsDue, due_from};

// How long an answer is waited for before each time that a request goes out again, in milliseconds.
const WAITS: [u64; 5] = [1000, 2000, 4000, 8000, 16_000];

// How long an answer is waited for after the last time, in milliseconds.
const LAST_WAIT: u64 = 16_000;

/// What is to be done about a request at a time.
#[derive(Clone, Copy, Debug, PartialEq, Eq)]
pub enum Due {
    /// Its answer is still waited for.
    Nothing,
    /// It is to go out again.
    Again,
    /// No answer came to its last sending: the IKE SA has failed (RFC 7296 section 2.4).
    Over,
}

/// The timer of one request: when its octets go out again, and when no answer is waited for any more (RFC
/// 7296 sections 2.1 and 2.4). Times are in milliseconds from any beginning, and may take any value of 64
/// bits.
#[derive(Clone, Copy, Debug, PartialEq, Eq)]
pub struct Timer {
    /// The time at which it was sent last.
    pub sent: u64,
    /// How often it was sent again.
    pub repeats: u8,
}

impl Timer {
    /// The timer of a request that is first sent at this time.
    pub fn started(now: u64) -> Timer
        ensures { result ≡ record { sent = now; repeats = 0 } }
    {
        Timer {
            sent: now,
            repeats: 0,
        }
    }

    /// What is due at a time: nothing before the last sending and the wait that stands next, then one more
    /// sending, or the end after the fifth. The waits are 1000, 2000, 4000, 8000 and 16,000 ms, and 16,000 ms
    /// after the last sending.
    pub fn due(&self, now: u64) -> Due
        ensures { IsDue self.now now result }
    {
        let wait = self.wait();
        if now < self.sent || now - self.sent < wait {
            Due::Nothing
        } else if usize::from(self.repeats) < WAITS.len() {
            Due::Again
        } else {
            Due::Over
        }
    }

    /// The earliest time at which something is due ([`due`](Timer::due)), in milliseconds. None where that
    /// would be past 64 bits: then nothing is due at any time.
    pub fn moment(&self) -> Option<u64>
        ensures { SomeIff result (due_from self.now < 2 ^ 64) (due_from self.now) }
    {
        self.sent.checked_add(self.wait())
    }

    // The wait that stands next.
    fn wait(&self) -> u64
        ensures { due_from self.now ≡ self.now.sent + result }
    {
        match WAITS.get(usize::from(self.repeats)) {
            Some(wait) => *wait,
            None => LAST_WAIT,
        }
    }

    /// The timer after a sending at a time at which one is due. However late the time, the next wait counts
    /// from it.
    pub fn sent_again(self, now: u64) -> Timer
        requires { IsDue self now Due.Again }
        ensures { result ≡ record { sent = now; repeats = self.repeats + 1 } }
    {
        Timer {
            sent: now,
            repeats: self.repeats + 1,
        }
    }
}
