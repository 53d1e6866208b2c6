// What every layer counts, searches, fills, refuses and answers with. Definitions stand in specs/, laws in proofs/.
#![tactic(auto)]

ghost use Rattle.std.specs.Prelude.{◌≡◌, length, replicate};
ghost use Rattle.basics.specs.Refusals.{number, place_of, written};

// FILLING

// Sets every item to a value; words are cleared by filling them with zero. A part of a buffer is filled as a slice of it.
pub fn fill<T: Copy>(items: &mut [T], value: T)
    ensures { items.new ≡ replicate (length items.old) value }
{
    for i in 0..items.len() {
        items[i] = value;
    }
}

// REFUSALS

// A place in a pattern: a state and a letter together.
#[repr(C)]
#[derive(Clone, Copy, PartialEq, Eq)]
pub struct Place {
    pub state: u32,
    pub letter: u32,
}

// The place of every answer but refusal 10.
pub const NO_PLACE: Place = Place {
    state: 0,
    letter: 0,
};

// Why a call is refused, in the order of docs/RULES.md, "Refusals". A pattern that forks is refused with the place where it forks first.
#[derive(Clone, Copy, PartialEq, Eq)]
pub enum Refusal {
    // Of a text: it is no list of numbers that words hold, or too long a one.
    Input,
    // Of a table: fewer than three words; n, k or m is out of range; its length; its flags; its letters and targets; its links.
    Short,
    States,
    Letters,
    Records,
    Length,
    Flags,
    Edges,
    Chains,
    // Of a pattern: it is not semi-deterministic.
    Forks(Place),
    // Of a build: too many states; too many edges or too few words.
    Room,
    Table,
    // Of a lasso: its loop; its lengths; its letters; the work words.
    EmptyLoop,
    LongPart,
    WrongLetter,
    Work,
    // Of a tray: its list ends inside a lasso; the answer bytes are not as many.
    List,
    Answers,
    // Of two patterns together: their letters; their states; their records; the lent words.
    OtherLetters,
    MergedStates,
    MergedRecords,
    MergedRoom,
}

impl Refusal {
    // Its number in docs/RULES.md.
    pub fn number(self) -> u32
        ensures { result ≡ number self }
    {
        match self {
            Refusal::Input => 1,
            Refusal::Short => 2,
            Refusal::States => 3,
            Refusal::Letters => 4,
            Refusal::Records => 5,
            Refusal::Length => 6,
            Refusal::Flags => 7,
            Refusal::Edges => 8,
            Refusal::Chains => 9,
            Refusal::Forks(_) => 10,
            Refusal::Room => 11,
            Refusal::Table => 12,
            Refusal::EmptyLoop => 13,
            Refusal::LongPart => 14,
            Refusal::WrongLetter => 15,
            Refusal::Work => 16,
            Refusal::List => 17,
            Refusal::Answers => 18,
            Refusal::OtherLetters => 19,
            Refusal::MergedStates => 20,
            Refusal::MergedRecords => 21,
            Refusal::MergedRoom => 22,
        }
    }

    // Where the pattern forks, and no place for every other refusal.
    pub fn place(self) -> Place
        ensures { result ≡ place_of self }
    {
        match self {
            Refusal::Forks(place) => place,
            _ => NO_PLACE,
        }
    }
}

// ANSWERS FOR C

// What a call answers that writes items and is no build: number 0 and how many it wrote, or the refusal's number and count 0.
#[repr(C)]
#[derive(Clone, Copy, PartialEq, Eq)]
pub struct Written {
    pub number: u32,
    pub count: usize,
}

impl From<Result<usize, Refusal>> for Written {
    ghost from_gives = { λ told answer. answer ≡ written told };

    fn from(told: Result<usize, Refusal>) -> Written {
        match told {
            Ok(count) => Written { number: 0, count },
            Err(refusal) => Written {
                number: refusal.number(),
                count: 0,
            },
        }
    }
}
