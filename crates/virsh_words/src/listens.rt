// The domains of `events`.
ghost use Rattle.command_spec.specs.Reading as spec;
ghost use Rattle.virsh_words.specs.Rest.{StepsOrNoMemory, behind_listens, seen};

use crate::line::{is_over, two_words};
use crate::rest::Rest;
use crate::text::two_texts;
use command_spec::{Listen, ListenList, WordFault};
use std::alloc::Global;
use types_base::{ListOf, OrNoMemory};

/// An address and a domain.
#[tactic(auto, unfolding(command_spec::specs::Reading::first_listen))]
pub(crate) fn listen(
    alloc: Global,
    rest: Rest<'_>,
) -> Result<(Listen, Rest<'_>), OrNoMemory<WordFault>>
    ensures { StepsOrNoMemory (spec.first_listen (seen rest.entry)) result }
{
    let ((address, name), rest) = two_texts(alloc, rest)?;
    Ok((Listen { address, name }, rest))
}

/// These, and at most so many more, up to the end.
pub(crate) fn listens(
    alloc: Global,
    mut list: ListenList,
    most: u32,
    mut rest: Rest<'_>,
) -> Result<(ListenList, Rest<'_>), OrNoMemory<WordFault>>
    ensures { StepsOrNoMemory (behind_listens list (spec.first_listens most (seen rest.entry))) result }
{
    for _ in 0..most {
        if is_over(rest) {
            return Ok((list, rest));
        }
        let (one, behind) = listen(alloc, rest)?;
        list.push(one)?;
        rest = behind;
    }
    Ok((list, rest))
}
