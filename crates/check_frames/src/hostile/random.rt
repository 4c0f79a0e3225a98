//! Numbers that look random and are the same in each run.
ghost use Rattle.std.specs.Prelude.{◌<◌};

/// A generator by xorshift with the shifts 13, 7 and 17.
#[derive(Drop)]
pub(crate) struct Random {
    state: u64,
}

impl Random {
    /// The generator that begins with this seed. From 0 there would be nothing but 0, so 1 is used instead.
    pub(crate) fn new(seed: u64) -> Random {
        Random { state: seed.max(1) }
    }

    /// The next number of 64 bits.
    pub(crate) fn next(&mut self) -> u64 {
        let mut state = self.state;
        state ^= state << 13;
        state ^= state >> 7;
        state ^= state << 17;
        self.state = state;
        state
    }

    /// A number below `limit`.
    pub(crate) fn below(&mut self, limit: u64) -> u64
        requires { 0 < limit }
        ensures { result < limit }
    {
        self.next() % limit
    }

    /// Any byte half of the time, and otherwise one of the first eight, which lengths, counts and branches mostly are.
    pub(crate) fn byte(&mut self) -> u8 {
        let number = self.next();
        if number & 0x100 == 0 {
            (number % 256) as u8
        } else {
            (number % 8) as u8
        }
    }
}
