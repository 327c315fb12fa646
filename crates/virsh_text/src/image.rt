// What was written of a domain, after the jobs that were shown meanwhile.
ghost use Rattle.std.specs.Prelude.{◌≡◌, ◌++◌, IfOk, OnOk, codes};
ghost use Rattle.std.specs.String.{string_bytes};
ghost use Rattle.command_spec.specs.Actions.{done as done_of, image_action as image_action_of};
ghost use Rattle.command_spec.specs.Output.{ImagePrints};
ghost use Rattle.command_spec.specs.Printed.{job_text as job_text_of};
ghost use Rattle.virsh_text.specs.Objects.{JobsPrint};
ghost use Rattle.virsh_text.specs.Texts.{IsTextOf};

use crate::action::{done, image_action};
use crate::domain::job_text;
use command_spec::ImageVerb;
use std::alloc::Global;
use virt_types::{DomainRef, JobInfo, NoMemory, Text, Value};

// A job in its line, after what is there.
fn push_job(text: &mut String, alloc: Global, job: &JobInfo) -> Result<(), NoMemory>
    ensures { OnOk result (string_bytes text.new ≡ string_bytes text.old ++ job_text_of job.now) }
{
    let job = job_text(alloc, job)?;
    text.push_str(job.as_str())?;
    Ok(())
}

// Jobs, each in its line; none where something else is among them.
fn jobs_text(alloc: Global, values: &[Value]) -> Result<Option<Text>, NoMemory>
    ensures { IfOk result (IsTextOf (JobsPrint values.now)) }
{
    let mut text = String::new(alloc);
    for value in values {
        match value {
            Value::Job(job) => push_job(&mut text, alloc, job)?,
            _ => return Ok(None),
        }
    }
    Ok(Some(Text::of(text)))
}

// The line that an image was written, after these of jobs.
fn written_text(
    alloc: Global,
    verb: ImageVerb,
    domain: &DomainRef,
    jobs: Text,
) -> Result<Text, NoMemory>
    ensures { IfOk result (λ text. text ≡ jobs ++ done_of (codes "Domain") domain.now.name (image_action_of verb)) }
{
    let written = done(alloc, "Domain", domain.name.as_str(), image_action(verb))?;
    let mut text = jobs.into_string();
    text.push_str(written.as_str())?;
    Ok(Text::of(text))
}

/// What `save` and `dump` print of a domain, by what was answered after it was looked up; none where that is no
/// answer to what they ask.
pub(crate) fn image_text(
    alloc: Global,
    verb: ImageVerb,
    domain: &DomainRef,
    values: &[Value],
) -> Result<Option<Text>, NoMemory>
    ensures { IfOk result (IsTextOf (ImagePrints (codes "Domain") domain.now.name (image_action_of verb) values.now)) }
{
    let [jobs @ .., last] = values else {
        return Ok(None);
    };
    if !matches!(last, Value::Nothing) {
        return Ok(None);
    }
    match jobs_text(alloc, jobs)? {
        Some(jobs) => Ok(Some(written_text(alloc, verb, domain, jobs)?)),
        None => Ok(None),
    }
}
