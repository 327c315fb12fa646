// The one line that says what was done.
ghost use Rattle.std.specs.Prelude.{◌≡◌, IfOk, option_map};
ghost use Rattle.command_spec.specs.Actions as spec;
ghost use Rattle.command_spec.specs.Output.{action_text as action_text_of};

use command_spec::{DomainFileVerb, DomainVerb, FileVerb, Flag, ImageVerb, NetworkVerb, PoolVerb};
use std::alloc::Global;
use virt_types::{NoMemory, Text};

/// What was done with what, by its name.
pub(crate) fn done(alloc: Global, kind: &str, name: &str, action: &str) -> Result<Text, NoMemory>
    ensures { IfOk result (λ text. text ≡ spec.done kind.now name.now action.now) }
{
    Ok(Text::of(format!(in alloc; "{kind} {name} {action}\n")?))
}

/// The line of an action, where it has one.
pub(crate) fn action_text(
    alloc: Global,
    kind: &str,
    name: &str,
    action: Option<&str>,
) -> Result<Text, NoMemory>
    ensures { IfOk result (λ text. text ≡ action_text_of kind.now name.now (option_map (λ a. a.now) action.entry)) }
{
    match action {
        Some(action) => done(alloc, kind, name, action),
        None => Ok(Text::copy_of(alloc, "")?),
    }
}

fn marked(option: Option<Flag>) -> &'static str
    ensures { result.now ≡ spec.marked option }
{
    match option {
        Some(_) => "unmarked",
        None => "marked",
    }
}

/// What was done with a domain.
pub(crate) fn domain_action(verb: DomainVerb, option: Option<Flag>) -> Option<&'static str>
    ensures { option_map (λ a. a.now) result ≡ spec.domain_action verb option }
{
    match verb {
        DomainVerb::Start => Some("started"),
        DomainVerb::Shutdown => Some("being shut down"),
        DomainVerb::Reboot => Some("being rebooted"),
        DomainVerb::Suspend => Some("suspended"),
        DomainVerb::Resume => Some("resumed"),
        DomainVerb::Destroy => Some("destroyed"),
        DomainVerb::Undefine => Some("undefined"),
        DomainVerb::Autostart => Some(marked(option)),
        _ => None,
    }
}

/// What was written of a domain.
pub(crate) fn image_action(verb: ImageVerb) -> &'static str
    ensures { result.now ≡ spec.image_action verb }
{
    match verb {
        ImageVerb::Save => "saved",
        ImageVerb::Dump => "dumped",
    }
}

/// What was made of a definition, by the name that the daemon gives it.
pub(crate) fn file_text(alloc: Global, verb: FileVerb, name: &str) -> Result<Text, NoMemory>
    ensures { IfOk result (λ text. text ≡ spec.file_text verb name.now) }
{
    match verb {
        FileVerb::Define => done(alloc, "Domain", name, "defined"),
        FileVerb::Create => done(alloc, "Domain", name, "created"),
        FileVerb::NetDefine => done(alloc, "Network", name, "defined"),
        FileVerb::PoolDefine => done(alloc, "Pool", name, "defined"),
    }
}

/// What was done with a network.
pub(crate) fn network_action(verb: NetworkVerb) -> Option<&'static str>
    ensures { option_map (λ a. a.now) result ≡ spec.network_action verb }
{
    match verb {
        NetworkVerb::Start => Some("started"),
        NetworkVerb::Destroy => Some("destroyed"),
        NetworkVerb::Undefine => Some("undefined"),
        NetworkVerb::Autostart => Some("marked"),
        _ => None,
    }
}

/// What was done with a pool.
pub(crate) fn pool_action(verb: PoolVerb) -> Option<&'static str>
    ensures { option_map (λ a. a.now) result ≡ spec.pool_action verb }
{
    match verb {
        PoolVerb::Start => Some("started"),
        PoolVerb::Destroy => Some("destroyed"),
        PoolVerb::Undefine => Some("undefined"),
        PoolVerb::Autostart => Some("marked"),
        _ => None,
    }
}

/// What was done with the text of a file and a domain; a snapshot is given its name by the daemon.
pub(crate) fn domain_file_text(
    alloc: Global,
    verb: DomainFileVerb,
    name: &str,
) -> Result<Text, NoMemory>
    ensures { IfOk result (λ text. text ≡ spec.domain_file_text verb name.now) }
{
    match verb {
        DomainFileVerb::AttachDevice => Ok(Text::copy_of(alloc, "Device attached\n")?),
        DomainFileVerb::DetachDevice => Ok(Text::copy_of(alloc, "Device detached\n")?),
        DomainFileVerb::SnapshotCreate => done(alloc, "Domain snapshot", name, "created"),
    }
}
