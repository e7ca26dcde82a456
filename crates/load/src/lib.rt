// A test load that anybody can repeat: work words drawn from the states of Marsaglia's 32-bit xorshift.
#![tactic(auto)]

ghost use Rattle.std.specs.Prelude.{◌≡◌, ◌<◌, ◌↔◌, IsNone, unwrap_or, length, T};
ghost use Rattle.refusals.specs.Refusals.{outcome};
ghost use Rattle.settings.specs.Numbers.{legal_store};
ghost use Rattle.load.specs.Xorshift.{step};
ghost use Rattle.load.specs.Load.{load_word, load, declines, load_state, Load};

use refusals::Refusal;

// The most words of one call.
const MOST_WORDS: u32 = 1024;

// The kinds of its words, in the top 4 bits, as C has them.
const READ: u32 = 268435456;

const WRITE: u32 = 536870912;

// The next state. A shift to the left is cut to 32 bits.
fn step(x: u32) -> u32
    ensures { result ≡ step x }
{
    let a = x ^ (x << 13);
    let b = a ^ (a >> 17);
    b ^ (b << 5)
}

// The work word of a state: a write if the state mod 4 is 0, else a read.
fn load_word(m: u32, x: u32) -> u32
    requires { T (legal_store m) }
    ensures { result ≡ load_word m x }
{
    let block = x / 4 % m;
    if x % 4 == 0 {
        WRITE + block
    } else {
        READ + block
    }
}

// A load over a whole slice: each word from the next state.
fn fill(seed: u32, m: u32, words: &mut [u32])
    requires { T (legal_store m) }
    ensures { words.new ≡ load m seed (length words.old) }
{
    let mut state = seed;
    for word in words.iter_mut() {
        let next = step(state);
        *word = load_word(m, next);
        state = next;
    }
}

// Whether a load is declined, by what is asked for and the room lent.
fn declines(seed: u32, m: u32, count: u32, room: usize) -> bool
    ensures { result ≡ declines seed m count room }
{
    if seed == 0 {
        return true;
    }
    if !settings::between(1, settings::MOST_STORED, m) {
        return true;
    }
    if count > MOST_WORDS {
        return true;
    }
    room < count as usize
}

// A load of count words at the front of words; 13 where it is declined, and words then stay.
pub fn load(seed: u32, m: u32, count: u32, words: &mut [u32]) -> Result<(), Refusal>
    ensures { Load seed m count words.old (outcome result) words.new }
{
    let room = words.len();
    if declines(seed, m, count, room) {
        return Err(Refusal::BadLoad);
    }
    let asked = count as usize;
    fill(seed, m, &mut words[..asked]);
    Ok(())
}

// The state after count words, from which a load goes on; none where over 1,024 words are asked for. Seed 0, which no load has, stays 0.
pub fn load_state(seed: u32, count: u32) -> Option<u32>
    ensures state { unwrap_or result 0 ≡ load_state seed count }
    ensures too_many { IsNone result ↔ (1024 < count) }
{
    if count > MOST_WORDS {
        return None;
    }
    let mut state = seed;
    for _ in 0..count {
        state = step(state);
    }
    Some(state)
}
