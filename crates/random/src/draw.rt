// A linear congruential generator.
ghost use Rattle.std.specs.Prelude.{◌≤◌};

#[derive(Clone, Copy)]
pub(crate) struct Draw {
    pub seed: usize,
}

impl Draw {
    pub(crate) fn next(self) -> Draw {
        Draw {
            seed: (self.seed % 2147483648 * 1103515245 + 12345) % 2147483648,
        }
    }

    // The start of another sequence, for what is drawn apart.
    pub(crate) fn apart(self) -> Draw {
        let start = Draw {
            seed: self.seed / 2 + 1,
        };
        start.next()
    }

    // Goes on to the next number and answers it: below the limit, or zero where that is zero. It comes from the upper bits, since the
    // lower ones repeat soon.
    pub(crate) fn below(&mut self, limit: usize) -> usize
        ensures { result ≤ limit }
    {
        *self = self.next();
        (self.seed / 65536).checked_rem(limit).unwrap_or(0)
    }
}
