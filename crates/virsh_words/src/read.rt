// A whole command line.
ghost use Rattle.std.specs.Prelude.{◌≡◌, IfOk, map, option_map};
ghost use Rattle.std.specs.String.{string_bytes};
ghost use Rattle.types_base.specs.Memory.{UnlessNoMemory};
ghost use Rattle.command_spec.specs.Lines as spec;
ghost use Rattle.command_spec.specs.Reading.{first_number as number_first};
ghost use Rattle.virsh_words.specs.Rest.{StepsOrNoMemory, seen};

use crate::line::{address, all_of, ended, form, number, word};
use crate::listens::{listen, listens};
use crate::rest::Rest;
use crate::text::{text, two_texts};
use command_spec::{
    Command, Flag, Form, Job, MOST_DIGITS, MOST_LISTENS, MOST_MEMORY_DIGITS, NumberVerb, WordFault,
};
use std::alloc::Global;
use types_base::{ListOf, NoMemory, OrNoMemory, Text};

// A number of at most 9 digits.
fn small_number(rest: Rest<'_>) -> Result<(u32, Rest<'_>), OrNoMemory<WordFault>>
    ensures { StepsOrNoMemory (number_first MOST_DIGITS (seen rest.entry)) result }
{
    let (number, rest) = number(rest, MOST_DIGITS)?;
    Ok((number as u32, rest))
}

// A domain and a number.
#[tactic(auto, unfolding(command_spec::specs::Lines::first_numbered))]
fn numbered(
    alloc: Global,
    verb: NumberVerb,
    rest: Rest<'_>,
) -> Result<(Command, Rest<'_>), OrNoMemory<WordFault>>
    ensures { StepsOrNoMemory (spec.first_numbered verb (seen rest.entry)) result }
{
    let (name, rest) = word(rest)?;
    let (number, rest) = small_number(rest)?;
    let name = Text::copy_of(alloc, name)?;
    Ok((Command::Number { verb, name, number }, rest))
}

// A domain and a memory.
#[tactic(auto, unfolding(command_spec::specs::Lines::first_memory))]
fn with_memory(alloc: Global, rest: Rest<'_>) -> Result<(Command, Rest<'_>), OrNoMemory<WordFault>>
    ensures { StepsOrNoMemory (spec.first_memory (seen rest.entry)) result }
{
    let (name, rest) = word(rest)?;
    let (memory, rest) = number(rest, MOST_MEMORY_DIGITS)?;
    let name = Text::copy_of(alloc, name)?;
    Ok((Command::SetMem { name, memory }, rest))
}

// A number, and then addresses with domains.
#[tactic(auto, unfolding(command_spec::specs::Lines::first_events))]
fn events(alloc: Global, rest: Rest<'_>) -> Result<(Command, Rest<'_>), OrNoMemory<WordFault>>
    ensures { StepsOrNoMemory (spec.first_events (seen rest.entry)) result }
{
    let (count, rest) = small_number(rest)?;
    let (one, rest) = listen(alloc, rest)?;
    let mut list = ListOf::new(alloc);
    list.push(one)?;
    let (listens, rest) = listens(alloc, list, MOST_LISTENS - 1, rest)?;
    Ok((Command::Events { count, listens }, rest))
}

// What follows the word of a command.
fn command(
    alloc: Global,
    form: Form,
    rest: Rest<'_>,
) -> Result<(Command, Rest<'_>), OrNoMemory<WordFault>>
    ensures { StepsOrNoMemory (spec.first_command form (seen rest.entry)) result }
{
    match form {
        Form::Plain(verb) => Ok((Command::Plain { verb }, rest)),
        Form::File(verb) => {
            let (file, rest) = text(alloc, rest)?;
            Ok((Command::File { verb, file }, rest))
        }
        Form::Restore => {
            let (image, rest) = text(alloc, rest)?;
            Ok((Command::Restore { image }, rest))
        }
        Form::Domain(verb) => {
            let (name, rest) = text(alloc, rest)?;
            Ok((Command::Domain { verb, name }, rest))
        }
        Form::Number(verb) => numbered(alloc, verb, rest),
        Form::SetMem => with_memory(alloc, rest),
        Form::DomainFile(verb) => {
            let ((name, file), rest) = two_texts(alloc, rest)?;
            Ok((Command::DomainFile { verb, name, file }, rest))
        }
        Form::Image(verb) => {
            let ((name, image), rest) = two_texts(alloc, rest)?;
            Ok((Command::Image { verb, name, image }, rest))
        }
        Form::Snapshot(verb) => {
            let ((name, snapshot), rest) = two_texts(alloc, rest)?;
            Ok((
                Command::Snapshot {
                    verb,
                    name,
                    snapshot,
                },
                rest,
            ))
        }
        Form::Network(verb) => {
            let (name, rest) = text(alloc, rest)?;
            Ok((Command::Network { verb, name }, rest))
        }
        Form::Pool(verb) => {
            let (name, rest) = text(alloc, rest)?;
            Ok((Command::Pool { verb, name }, rest))
        }
        Form::VolCreate => {
            let ((pool, file), rest) = two_texts(alloc, rest)?;
            Ok((Command::VolCreate { pool, file }, rest))
        }
        Form::Volume(verb) => {
            let ((pool, volume), rest) = two_texts(alloc, rest)?;
            Ok((Command::Volume { verb, pool, volume }, rest))
        }
        Form::Events => events(alloc, rest),
    }
}

// A command with its option, up to the end.
#[tactic(auto, unfolding(command_spec::specs::Lines::whole_command))]
fn whole(alloc: Global, rest: Rest<'_>) -> Result<(Command, Option<Flag>), OrNoMemory<WordFault>>
    ensures { UnlessNoMemory result (spec.whole_command (seen rest.entry)) }
{
    let (form, rest) = form(rest)?;
    let (command, rest) = command(alloc, form, rest)?;
    match ended(rest) {
        Ok(option) => Ok((command, option)),
        Err(fault) => {
            drop(command);
            Err(OrNoMemory::Fault(fault))
        }
    }
}

fn kept(alloc: Global, address: Option<&str>) -> Result<Option<Text>, NoMemory>
    ensures { IfOk result (λ text. text ≡ option_map (λ a. a.now) address.entry) }
{
    match address {
        Some(address) => Ok(Some(Text::copy_of(alloc, address)?)),
        None => Ok(None),
    }
}

/// What the words of a command line, without the program's own name, ask for.
#[tactic(auto, unfolding(command_spec::specs::Lines::job_of))]
pub fn read_words(alloc: Global, words: &[String]) -> Result<Job, OrNoMemory<WordFault>>
    ensures { UnlessNoMemory result (spec.job_of (map string_bytes words.now)) }
{
    let (address, rest) = address(all_of(words))?;
    let address = kept(alloc, address)?;
    match whole(alloc, rest) {
        Ok((command, option)) => Ok(Job {
            address,
            command,
            option,
        }),
        Err(fault) => Err(fault),
    }
}
