// What the results of the store answer.
ghost use Rattle.std.specs.Prelude.{◌≡◌};
ghost use Rattle.virt_types.specs.declared.answer.Answer.TheVariants as answer;
ghost use Rattle.store_asks.specs.Asks as spec;

use def_keeper::StoreFault;
use virt_types::{Answer, AnswerValue, Fault, Front, OrNoMemory};

// The class of a name that is kept for another identifier.
const NAME_KEPT: u32 = 28;

// The class of a lease of a network that is not there.
const NO_NETWORK: u32 = 11;

/// What a change answers.
pub(crate) fn change_answer(changed: Result<Front, OrNoMemory<StoreFault>>) -> Answer
    ensures { result ≡ spec.change_answer changed }
{
    match changed {
        Ok(front) => Answer::Ok(AnswerValue::Front(front)),
        Err(OrNoMemory::Fault(StoreFault::Device)) => Answer::Device,
        Err(OrNoMemory::Fault(StoreFault::NameKept { .. })) => Answer::Refused(NAME_KEPT),
        Err(OrNoMemory::NoMemory) => Answer::NoMemory,
    }
}

/// What an image that was to be written answers.
pub(crate) fn image_answer(written: Result<(), Fault>) -> Answer
    ensures { result ≡ spec.image_answer written }
{
    match written {
        Ok(()) => Answer::Ok(AnswerValue::Nothing),
        Err(Fault::Failed) => Answer::Device,
        Err(Fault::NoMemory) => Answer::NoMemory,
    }
}

/// What a lease answers while there are no networks.
pub(crate) fn lease_answer() -> Answer
    ensures { result ≡ answer.Refused spec.no_network }
{
    Answer::Refused(NO_NETWORK)
}
