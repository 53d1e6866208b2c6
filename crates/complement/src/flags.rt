// The flags of the states: initial ones come first, and the quadruple says whether its state accepts.
ghost use Rattle.std.specs.Prelude.{◌≡◌, ◌<◌};
ghost use Rattle.record_words.specs.Record.{full_records};
ghost use Rattle.complement.specs.Build.{lent};
ghost use Rattle.complement.specs.Flags.{state_flags, with_flags, record_accepts, FlagsAsk};

// The flags of one state, given how many are initial.
#[tactic(auto, unfolding(crate::specs::Flags::state_flags, crate::specs::Flags::record_accepts, tables::specs::Table::flags))]
fn state_flags(sets: &[u32], initial: usize, state: usize) -> u16
    requires { state < full_records sets.now }
    ensures { result ≡ state_flags (record_accepts sets.now) initial state }
{
    let x = record_words::load(sets, state);
    match (state < initial, x.accepting()) {
        (true, true) => 3,
        (true, false) => 1,
        (false, true) => 2,
        (false, false) => 0,
    }
}

// Sets the flags of so many states.
#[tactic(auto, unfolding(crate::specs::Flags::with_flags))]
pub(crate) fn set_flags(words: &mut [u16], sets: &[u32], initial: usize, states: usize)
    requires { FlagsAsk (lent words.old sets.now) states }
    ensures { words.new ≡ with_flags (record_accepts sets.now) initial states words.old }
{
    for state in 0..states {
        words[3 + 2 * state] = state_flags(sets, initial, state);
    }
}
