// Requests that bring a definition with them.
ghost use Rattle.std.specs.Prelude.{◌≡◌, ℤ, None};
ghost use Rattle.outcome_spec.specs.Below.domain_requests.Requests.{passed_one};
ghost use Rattle.virt_types.specs.Drawn.{IsMadeOfDrawn};
ghost use Rattle.virt_types.specs.declared.request.Request.TheVariants as request;
ghost use Rattle.request_asks.specs.Said.{IsSaid};

use crate::asked::Asked;
use crate::claiming::{Claimed, claim_text};
use crate::refusing::refuse_number;
use outcome_spec::Task;
use std::alloc::Global;
use virt_types::{Boxed, Bytes, Call, NoMemory, Random, Text};

/// DOMAIN_DEFINE_XML.
pub(crate) fn define<R: Random>(alloc: Global, xml: &Text, random: &mut R) -> Asked
    ensures { IsMadeOfDrawn (λ words. IsSaid words (request.DomainDefineXml xml.now) result) (R.drawn random.old) (R.drawn random.new) }
{
    match claim_text(alloc, xml, random) {
        Ok(claimed) => {
            let Claimed { hold, definition } = claimed;
            Asked::Task {
                hold,
                task: Task::Run(Call::Define(definition)),
            }
        }
        Err(why) => Asked::refused(why),
    }
}

/// DOMAIN_CREATE_XML, whatever its flags are.
pub(crate) fn create<R: Random>(alloc: Global, xml: &Text, random: &mut R) -> Asked
    ensures { IsMadeOfDrawn (λ words. (flags : ℤ) → IsSaid words (request.DomainCreateXml xml.now flags) result) (R.drawn random.old) (R.drawn random.new) }
{
    match claim_text(alloc, xml, random) {
        Ok(claimed) => {
            let Claimed { hold, definition } = claimed;
            Asked::Task {
                hold,
                task: Task::Run(Call::Create(definition)),
            }
        }
        Err(why) => Asked::refused(why),
    }
}

// The bound of 0 and 1 that a number passes.
fn passed_one(n: i32) -> Option<u32>
    ensures { result ≡ passed_one n }
{
    if n < 0 {
        Some(0)
    } else if n > 1 {
        Some(1)
    } else {
        None
    }
}

// MIGRATE_PREPARE, where the number is 0 or 1.
fn prepare_counted<R: Random>(
    alloc: Global,
    xml: &Text,
    running: i32,
    state: &Bytes,
    random: &mut R,
) -> Asked
    requires { passed_one running ≡ None }
    ensures { IsMadeOfDrawn (λ words. IsSaid words (request.MigratePrepare xml.now running state.now) result) (R.drawn random.old) (R.drawn random.new) }
{
    let saved = match Boxed::copy_of(alloc, state) {
        Ok(saved) => saved,
        Err(NoMemory) => return Asked::NoMemory,
    };
    match claim_text(alloc, xml, random) {
        Ok(claimed) => {
            let Claimed { hold, definition } = claimed;
            Asked::Task {
                hold,
                task: Task::Run(Call::Prepare {
                    definition,
                    running: running > 0,
                    saved,
                }),
            }
        }
        Err(why) => {
            drop(saved);
            Asked::refused(why)
        }
    }
}

/// MIGRATE_PREPARE: the number first, and then the text.
pub(crate) fn prepare<R: Random>(
    alloc: Global,
    xml: &Text,
    running: i32,
    state: &Bytes,
    random: &mut R,
) -> Asked
    ensures { IsMadeOfDrawn (λ words. IsSaid words (request.MigratePrepare xml.now running state.now) result) (R.drawn random.old) (R.drawn random.new) }
{
    match passed_one(running) {
        None => prepare_counted(alloc, xml, running, state, random),
        Some(bound) => Asked::refused(refuse_number(alloc, running, bound)),
    }
}
