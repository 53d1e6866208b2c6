// Reading decimal numbers into lent words. Input comes in chunks, so what is known between two of them is a value.
ghost use Rattle.std.specs.Prelude.{◌≡◌, []};
ghost use Rattle.decimal.specs.Reading.{Ready, Became, Fed, between, ended, with_byte, bounds_of, scan_of, reading_of, value_of, is_blank};

// Between two numbers, within one whose digits so far make this value, or behind a fault.
#[derive(Clone, Copy, PartialEq, Eq)]
pub enum State {
    Between,
    Within(u16),
    Failed,
}

// How many numbers have ended, and where reading stands behind them. The words that it stores them in are lent anew for each piece of the
// input, so that it is ready for these is asked at each call.
#[derive(Clone, Copy)]
pub struct Reading {
    pub count: usize,
    pub state: State,
}

// A space or a newline.
#[tactic(auto, unfolding(crate::specs::Reading::is_blank))]
fn is_blank(byte: u8) -> bool
    ensures { result ≡ is_blank byte }
{
    matches!(byte, b' ' | b'\n')
}

impl Reading {
    // Before the first byte.
    #[tactic(auto, unfolding(crate::specs::Reading::reading_of, crate::specs::Reading::between))]
    pub fn start() -> Reading
        ensures { result ≡ reading_of (between []) }
    {
        Reading {
            count: 0,
            state: State::Between,
        }
    }

    // The number under way; zero where none is.
    fn so_far(self) -> u32
        ensures { result ≡ value_of self.state }
    {
        match self.state {
            State::Within(value) => u32::from(value),
            _ => 0,
        }
    }

    // The number under way ends, as it does at the end of the input, and is stored behind the others.
    pub fn ended(self, words: &mut [u16]) -> Reading
        requires { Ready self words.old }
        ensures { Became (ended (scan_of self words.old)) words.old result words.new }
    {
        let State::Within(value) = self.state else {
            return self;
        };
        words[self.count] = value;
        Reading {
            count: self.count + 1,
            state: State::Between,
        }
    }

    // One more byte. Nothing that follows a fault changes it.
    fn with_byte(self, byte: u8, words: &mut [u16]) -> Reading
        requires { Ready self words.old }
        ensures { Became (with_byte (bounds_of words.old) (scan_of self words.old) byte) words.old result words.new }
    {
        if self.state == State::Failed {
            return self;
        }
        if is_blank(byte) {
            return self.ended(words);
        }
        let fault = Reading {
            count: self.count,
            state: State::Failed,
        };
        if !byte.is_ascii_digit() || self.count >= words.len() {
            return fault;
        }
        let Ok(value) = u16::try_from(10 * self.so_far() + u32::from(byte - b'0')) else {
            return fault;
        };
        Reading {
            count: self.count,
            state: State::Within(value),
        }
    }

    // One more chunk of the input. Feeding two chunks is feeding the one that they make together.
    pub fn fed(self, chunk: &[u8], words: &mut [u16]) -> Reading
        requires { Ready self words.old }
        ensures { Fed self words.old chunk.now result words.new }
    {
        let mut reading = self;
        for &byte in chunk {
            reading = reading.with_byte(byte, words);
        }
        reading
    }
}
