// Words that are kept.
ghost use Rattle.command_spec.specs.Reading as spec;
ghost use Rattle.virsh_words.specs.Rest.{StepsOrNoMemory, seen};

use crate::line::{two_words, word};
use crate::rest::Rest;
use command_spec::WordFault;
use std::alloc::Global;
use types_base::{OrNoMemory, Text, both};

/// The next word that is no option.
pub(crate) fn text(alloc: Global, rest: Rest<'_>) -> Result<(Text, Rest<'_>), OrNoMemory<WordFault>>
    ensures { StepsOrNoMemory (spec.first_word (seen rest.entry)) result }
{
    let (word, rest) = word(rest)?;
    Ok((Text::copy_of(alloc, word)?, rest))
}

/// The next two words that are no options.
pub(crate) fn two_texts(
    alloc: Global,
    rest: Rest<'_>,
) -> Result<((Text, Text), Rest<'_>), OrNoMemory<WordFault>>
    ensures { StepsOrNoMemory (spec.first_two (seen rest.entry)) result }
{
    let ((one, other), rest) = two_words(rest)?;
    let texts = both(Text::copy_of(alloc, one), Text::copy_of(alloc, other))?;
    Ok((texts, rest))
}
