#![tactic(auto)]

ghost use Rattle.std.specs.Prelude.{◌≡◌, true, false, MatchResult};
ghost use Rattle.refusals.specs.Refusals.{number, outcome};
ghost use Rattle.layout.specs.Sound.{settings_in, sound};
ghost use Rattle.promises.specs.Promises.{number_of};
ghost use Rattle.promises.specs.Looks.{look_number};

use refusals::Refusal;
use settings::Legal;
use stack::Lengths;

// The settings of a sound directory; what is not sound is refused.
#[tactic(auto, using(layout::proofs::SoundLaws::sound_legal, settings::specs::NumbersLaws::number_zero))]
fn sound_settings(dir: &[u32]) -> Result<Legal, Refusal>
    ensures { MatchResult result (λ l. (sound dir.now ≡ true) × (l.of ≡ settings_in dir.now))
        (λ why. (sound dir.now ≡ false) × (number why ≡ 6)) }
{
    if soundness::sound(dir) {
        Ok(Legal {
            of: header::settings_in(dir),
        })
    } else {
        Err(Refusal::Unsound)
    }
}

// Why a batch is refused: 6 where the directory is not sound, then 7 to 12.
#[tactic(auto, using(crate::proofs::Laws::references_few), unfolding(promises::specs::Promises::number_of, stack::specs::Batch::batch_number))]
pub fn number(
    dir: &[u32],
    bytes: &[u8],
    store: &[u8],
    work: &[u32],
    incoming: &[u8],
    answers: &[u32],
    outgoing: &[u8],
) -> Result<(), Refusal>
    ensures { outcome result ≡ number_of work.now incoming.now
        (record { directory = dir.now; bytes = bytes.now; store = store.now; answers = answers.now; outgoing = outgoing.now }) }
{
    let legal = sound_settings(dir)?;
    let lent = Lengths {
        bytes: bytes.len(),
        store: store.len(),
        incoming: incoming.len(),
        answers: answers.len(),
        outgoing: outgoing.len(),
    };
    batch_number::batch_number(legal, header::references(dir), work, lent)
}

// Why a look is refused: 6, 7, 12 or 9.
#[tactic(auto, unfolding(promises::specs::Looks::look_number, promises::specs::Looks::look_tests))]
pub fn look_number(dir: &[u32], bytes: &[u8], store: &[u8], block: u32) -> Result<(), Refusal>
    ensures { outcome result ≡ look_number dir.now bytes.now store.now block }
{
    let legal = sound_settings(dir)?;
    batch_number::memory_number(legal, bytes.len(), store.len())?;
    if block < legal.of.m {
        Ok(())
    } else {
        Err(Refusal::BadWord)
    }
}
