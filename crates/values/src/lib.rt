#![tactic(auto)]

ghost use Rattle.std.specs.Prelude.{◌≡◌, ◌^◌, ◌<◌};
ghost use Rattle.word_ops.specs.Hit.{or_else, raised_count};
ghost use Rattle.word_ops.specs.Halve.{half};
ghost use Rattle.word_ops.specs.Mark.{is_marked, is_pinned, with_mark, without_write, with_seen, with_pin};

// A resident's section: new, middle (1) or old. Numbers, since the definitions speak of any word, sound or not, and sections are counted
// up and down.
pub const NEW: u32 = 0;

pub const OLD: u32 = 2;

// The highest count.
const COUNT_MOST: u32 = 65535;

// e1, or e2 where e1 is none: 0, as both come from link words.
pub fn or_else(e1: u32, e2: u32) -> u32
    ensures { result ≡ or_else e1 e2 }
{
    if e1 == 0 { e2 } else { e1 }
}

// The count after a hit on a resident of a section: it rises in the middle and the old one, to 65,535 at most.
pub fn raised_count(section: u32, count: u32) -> u32
    requires { count < 2 ^ 28 }
    ensures { (result ≡ raised_count section count) × (result < 2 ^ 28) }
{
    if section != NEW && count < COUNT_MOST {
        count + 1
    } else {
        count
    }
}

// Half of a count, rounded up.
pub fn half_count(count: u32) -> u32
    requires { count < 2 ^ 28 }
    ensures { (result ≡ half count) × (result < 2 ^ 28) }
{
    (count + 1) / 2
}

// ---- the modified word of an entry: modified + 2 × seen + 4 × pinned

// Whether it says modified.
pub fn is_marked(word: u32) -> bool
    ensures { result ≡ is_marked word }
{
    word % 2 == layout::MARKED
}

// Whether it says pinned.
pub fn is_pinned(word: u32) -> bool
    ensures { result ≡ is_pinned word }
{
    word / layout::PINNED % 2 == 1
}

// It with the modified mark; the others stay.
pub fn with_mark(word: u32) -> u32
    ensures { result ≡ with_mark word }
{
    word - word % 2 + layout::MARKED
}

// It without the two marks of a write; the pinned mark stays.
pub fn without_write(word: u32) -> u32
    ensures { result ≡ without_write word }
{
    word - word % layout::PINNED
}

// It with both of them; the pinned mark stays.
pub fn with_seen(word: u32) -> u32
    ensures { result ≡ with_seen word }
{
    without_write(word) + layout::DUE
}

// It with the pinned mark, or without it; the others stay.
pub fn with_pin(word: u32, on: bool) -> u32
    ensures { result ≡ with_pin on word }
{
    word % layout::PINNED + layout::PINNED * u32::from(on)
}
