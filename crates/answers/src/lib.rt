// Answers, and their words: the kind in the top 4 bits, the value in the low 28.
#![tactic(auto)]

ghost use Rattle.std.specs.Prelude.{◌≡◌};
ghost use Rattle.stack.specs.Stack.{answer_word};
ghost use Rattle.answers.specs.Meant.{meant, Fits};

// The kinds, as the numbers by which C takes a word apart.
const HIT: u32 = 1 << 28;

const ENTERED: u32 = 2 << 28;

const REPLACED: u32 = 3 << 28;

const PURGED: u32 = 4 << 28;

const ABSENT: u32 = 5 << 28;

const FLUSHED: u32 = 6 << 28;

const ALL_PINNED: u32 = 7 << 28;

const PINNED: u32 = 8 << 28;

const PURGE_REFUSED: u32 = 9 << 28;

// What is added for each chain looked at, where the victim was written out, and where counts were halved.
const CHAIN: u32 = 1 << 18;

const OUT: u32 = 1 << 25;

const HALVED: u32 = 1 << 26;

// What a work word came to.
#[derive(Clone, Copy, Debug, PartialEq, Eq)]
pub enum Answer {
    Hit { count: u32, halved: bool }, // the count after any rise and before halving
    Entered { halved: bool }, // an unused entry
    Replaced { victim: u32, chains: u32, out: bool },
    Purged { discarded: bool }, // whether modified bytes were
    Absent,
    Flushed(u32), // so many were written out
    AllPinned, // a miss, while all residents are pinned
    Pinned(bool), // whether the resident is pinned afterwards
    PurgeRefused, // of a pinned resident, which stays
}

impl Answer {
    #[tactic(auto, unfolding(stack::specs::Stack::answer_word))]
    pub fn word(self) -> u32
        requires { Fits self }
        ensures { result ≡ answer_word (meant self) }
    {
        match self {
            Answer::Hit { count, halved } => HIT + count + HALVED * u32::from(halved),
            Answer::Entered { halved } => ENTERED + HALVED * u32::from(halved),
            Answer::Replaced {
                victim,
                chains,
                out,
            } => REPLACED + victim + CHAIN * chains + OUT * u32::from(out),
            Answer::Purged { discarded } => PURGED + u32::from(discarded),
            Answer::Absent => ABSENT,
            Answer::Flushed(n) => FLUSHED + n,
            Answer::AllPinned => ALL_PINNED,
            Answer::Pinned(on) => PINNED + u32::from(on),
            Answer::PurgeRefused => PURGE_REFUSED,
        }
    }
}
