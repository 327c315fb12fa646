// Identifiers of version 4.
ghost use Rattle.std.specs.Prelude.{◌≡◌, ◌∷◌, [], ℕ};
ghost use Rattle.std.specs.Io.KnownBytes.{Appends};
ghost use Rattle.text_spec.specs.Fill as spec;
ghost use Rattle.types_base.specs.Drawn.{IsMadeOfDrawn};

use types_base::{Random, Uuid};
use uuid::Builder;

/// The identifier of version 4 (RFC 9562, section 5.4) of two words, the high byte first.
#[tactic(auto, unfolding(text_spec::specs::Fill::version_4))]
fn version_4(high: u64, low: u64) -> Uuid
    ensures { result ≡ spec.version_4 high low }
{
    Builder::from_random_bytes(Uuid::from_u64_pair(high, low).into_bytes()).into_uuid()
}

/// An identifier of the next two words.
fn next_uuid<R: Random>(random: &mut R) -> Uuid
    ensures { (high : ℕ) × (low : ℕ) × (result ≡ spec.version_4 high low)
        × Appends (R.drawn random.old) (R.drawn random.new) (high ∷ low ∷ []) }
{
    let high = random.word();
    let low = random.word();
    version_4(high, low)
}

/// The identifier that is there, or a new one.
pub fn uuid_or_new<R: Random>(uuid: Option<Uuid>, random: &mut R) -> Option<Uuid>
    ensures { IsMadeOfDrawn (λ words. spec.IsUuidFilled words uuid result)
        (R.drawn random.old) (R.drawn random.new) }
{
    match uuid {
        Some(uuid) => Some(uuid),
        None => Some(next_uuid(random)),
    }
}
