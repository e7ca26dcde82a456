// Why a call declines (SCOPE, "When a call declines"), and the number of each reason for C.
#![tactic(auto)]

ghost use Rattle.std.specs.Prelude.{◌≡◌};
ghost use Rattle.refusals.specs.Refusals.{number, outcome};

#[derive(Clone, Copy, Debug, PartialEq, Eq)]
pub enum Refusal {
    BadCacheSize, // N is outside its limits
    BadSections, // Nold is 0, or Nnew + Nold exceeds N
    BadCountLimit, // Cmax or Amax is outside its limits
    BadBlockOrStoreSize, // B or M is outside its limits
    ShortDirectory, // fewer words than the settings need
    Unsound, // the words are not a sound directory
    ShortDataOrStore, // data below N × B bytes, or the store below M × B
    TooManyWords, // a batch of more than 1,024 words
    BadWord, // a work word that means nothing under these settings
    ShortBuffer, // answers, incoming or outgoing shorter than the batch needs
    TotalsFull, // reads and writes would exceed 2^56 − 1
    LongStore, // the store above M × B bytes
    BadLoad, // a load's seed, M or length
    BadTrace, // a trace with too many words, or with another word than a read
}

impl From<Refusal> for u32 {
    ghost from_gives = { λ r n. n ≡ number r };

    fn from(r: Refusal) -> u32 {
        match r {
            Refusal::BadCacheSize => 1,
            Refusal::BadSections => 2,
            Refusal::BadCountLimit => 3,
            Refusal::BadBlockOrStoreSize => 4,
            Refusal::ShortDirectory => 5,
            Refusal::Unsound => 6,
            Refusal::ShortDataOrStore => 7,
            Refusal::TooManyWords => 8,
            Refusal::BadWord => 9,
            Refusal::ShortBuffer => 10,
            Refusal::TotalsFull => 11,
            Refusal::LongStore => 12,
            Refusal::BadLoad => 13,
            Refusal::BadTrace => 14,
        }
    }
}

// The number that C gets: 0 where the call was carried out.
pub fn outcome<T: Drop>(r: Result<T, Refusal>) -> u32
    ensures { result ≡ outcome r }
{
    match r {
        Ok(_) => 0,
        Err(why) => u32::from(why),
    }
}
