// The top call: from the words to the status.
ghost use Rattle.std.specs.Prelude.{◌≡◌, ◌≤◌, ◌⊎◌, IfNone, IfSome, false, length, map, option_map, true};
ghost use Rattle.command_spec.specs.declared.limits.TheConstants.{MOST_WORD_BYTES};
ghost use Rattle.std.specs.String.{string_bytes};
ghost use Rattle.command_spec.specs.declared.command.Job.{Job as TheJob};
ghost use Rattle.virsh_plan.specs.Within.{IsWithin};
ghost use Rattle.virsh.specs.Outside.{with_line};
ghost use Rattle.virsh.specs.Said.{usage_line};
ghost use Rattle.virsh.specs.Top.{AsksFor, Does, DoesContent, DoesFile, IsBadFile, IsServedCommand, IsServedOption, IsStarved, file_of};

use crate::connect::serve;
use crate::dial::Dial;
use crate::say::{say_bad_file, say_file, say_out_of_memory, say_usage};
use crate::status::{BAD_FILE, FILE, OUT_OF_MEMORY, USAGE};
use command_spec::{Command, Flag, Job};
use std::alloc::Global;
use virsh_words::read_words;
use virt_types::{Bytes, Fault, MOST_TEXT_BYTES, OrNoMemory, Text};

// `events` is not served yet.
fn is_served_command(command: &Command) -> bool
    ensures yes { result ≡ true → IsServedCommand command.now }
    ensures no { result ≡ false → IsServedCommand command.now → ⊥ }
{
    !matches!(command, Command::Events { .. })
}

// `--verbose` is not served yet.
fn is_served_option(option: Option<Flag>) -> bool
    ensures yes { result ≡ true → IsServedOption option }
    ensures no { result ≡ false → IsServedOption option → ⊥ }
{
    !matches!(option, Some(Flag::Verbose))
}

fn is_served(job: &Job) -> bool
    ensures yes { result ≡ true → IsServedCommand job.now.command × IsServedOption job.now.option }
    ensures no { result ≡ false → IsServedCommand job.now.command → IsServedOption job.now.option → ⊥ }
{
    if is_served_command(&job.command) {
        is_served_option(job.option)
    } else {
        false
    }
}

// The words are those of no command that is served.
fn usage<D: Dial>(dial: &mut D) -> u8
    ensures code { result ≡ 2 }
    ensures said { D.given dial.new ≡ with_line usage_line (D.given dial.old) }
{
    say_usage(dial);
    USAGE
}

// There was no memory, and nothing was dialed.
fn out_of_memory<D: Dial>(dial: &mut D) -> u8
    ensures { IsStarved (D.given dial.old) (D.given dial.new) result }
{
    say_out_of_memory(dial);
    OUT_OF_MEMORY
}

// The text that may be sent of what a file has.
fn text_of(content: &Bytes) -> Option<&str>
    ensures some { IfSome result (λ text. (text.now ≡ content.now) × (length text.now ≤ MOST_WORD_BYTES)) }
    ensures none { IfNone result (IsBadFile content.now) }
{
    let bytes = content.as_slice();
    if bytes.len() > MOST_TEXT_BYTES {
        return None;
    }
    str::from_utf8(bytes).ok()
}

// Does a job with the text of what its file has.
fn do_with_file<D: Dial>(alloc: Global, dial: &mut D, job: &Job, content: &Bytes) -> u8
    requires within { IsWithin job.now.command }
    requires served { IsServedCommand job.now.command }
    ensures { DoesContent D.S.left D.S.faults D.K.held D.K.faults D.O.held D.O.faults job.now content.now
        (D.given dial.old) (D.given dial.new) result }
{
    match text_of(content) {
        Some(xml) => serve(alloc, dial, job, xml),
        None => {
            say_bad_file(dial);
            BAD_FILE
        }
    }
}

// Reads the file of a job, and then does it.
fn read_and_do<D: Dial>(alloc: Global, dial: &mut D, job: &Job, file: &Text) -> u8
    requires within { IsWithin job.now.command }
    requires served { IsServedCommand job.now.command }
    ensures { DoesFile D.S.left D.S.faults D.K.held D.K.faults D.O.held D.O.faults job.now (Some file.now)
        (D.given dial.old) (D.given dial.new) result }
{
    match dial.file(file) {
        Ok(content) => do_with_file(alloc, dial, job, &content),
        Err(Fault::Failed) => {
            say_file(dial);
            FILE
        }
        Err(Fault::NoMemory) => out_of_memory(dial),
    }
}

// The file whose text is sent, where there is one.
fn file_of_command(command: &Command) -> Option<&Text>
    ensures { option_map (λ file. file.now) result ≡ file_of command.now }
{
    match command {
        Command::File { file, .. } => Some(file),
        Command::DomainFile { file, .. } => Some(file),
        Command::VolCreate { file, .. } => Some(file),
        _ => None,
    }
}

// Does a job.
fn do_job<D: Dial>(alloc: Global, dial: &mut D, job: &Job) -> u8
    requires within { IsWithin job.now.command }
    requires served { IsServedCommand job.now.command }
    ensures { Does D.S.left D.S.faults D.K.held D.K.faults D.O.held D.O.faults job.now (D.given dial.old) (D.given dial.new) result }
{
    match file_of_command(&job.command) {
        Some(file) => read_and_do(alloc, dial, job, file),
        None => serve(alloc, dial, job, ""),
    }
}

/// Does what the words of a command line say, by calls to a daemon, and answers the program's status: 0 where all is
/// done, and its text is on standard output; 1 where the daemon refused a call; 2 for words that are those of no command,
/// or of one that is not served yet; 3 for a file whose content is no UTF-8 or longer than 65,536 bytes; 4 where it
/// can't be read; 5 where nobody answers, the connection or standard output failed, or what came is no answer; and 12
/// where memory ran out. Each but 0 has its line on standard error. A file is read before anything is dialed.
pub fn virsh<D: Dial>(alloc: Global, words: &[String], dial: &mut D) -> u8
    ensures usage { result ≡ 2 → (job : TheJob) → AsksFor (map string_bytes words.now) job → ⊥ }
    ensures said { result ≡ 2 → D.given dial.new ≡ with_line usage_line (D.given dial.old) }
    ensures no_job { ((job : TheJob) → AsksFor (map string_bytes words.now) job → ⊥)
        → (result ≡ 2) ⊎ IsStarved (D.given dial.old) (D.given dial.new) result }
    ensures does { (job : TheJob) → AsksFor (map string_bytes words.now) job
        → Does D.S.left D.S.faults D.K.held D.K.faults D.O.held D.O.faults job (D.given dial.old) (D.given dial.new) result
        ⊎ IsStarved (D.given dial.old) (D.given dial.new) result }
{
    match read_words(alloc, words) {
        Ok(job) => {
            if is_served(&job) {
                do_job(alloc, dial, &job)
            } else {
                usage(dial)
            }
        }
        Err(OrNoMemory::Fault(_)) => usage(dial),
        Err(OrNoMemory::NoMemory) => out_of_memory(dial),
    }
}
