// The text of a command.
ghost use Rattle.std.specs.Prelude.{◌≡◌, ◌∷◌, [], ℕ, List, Option, IfNone, IfOk, IfSome, None};
ghost use Rattle.virt_types.specs.declared.reference.DomainRef.{DomainRef as Domain};
ghost use Rattle.virt_types.specs.declared.reference.NetworkRef.{NetworkRef as Network};
ghost use Rattle.virt_types.specs.declared.reference.PoolRef.{PoolRef as Pool};
ghost use Rattle.virt_types.specs.declared.value.Value.{Value as Answer};
ghost use Rattle.command_spec.specs.Output.{Prints};
ghost use Rattle.command_spec.specs.declared.form.Flag.{Flag};
ghost use Rattle.virsh_text.specs.Objects.{IsLookedUp, IsOfDomain, IsOfPool};
ghost use Rattle.virsh_text.specs.Texts.{IsTextOf};

use crate::action::{domain_file_text, done, file_text};
use crate::domain::domain_text;
use crate::image::image_text;
use crate::list::{networks_text, pools_text};
use crate::object::{network_text, pool_text, snapshot_text, volume_text};
use crate::table::table;
use command_spec::{Command, DomainFileVerb, FileVerb, Flag, NetworkVerb, PlainVerb};
use std::alloc::Global;
use virt_types::{NetworkRef, NoMemory, PoolRef, Text, Value};

// What lists everything.
fn plain_text(
    alloc: Global,
    verb: PlainVerb,
    option: Option<Flag>,
    values: &[Value],
) -> Result<Option<Text>, NoMemory>
    ensures { IfOk result (IsTextOf (Prints (Command.Plain verb) option values.now [])) }
{
    match values {
        [one] => match (verb, one) {
            (PlainVerb::List, Value::Domains(rows)) => {
                Ok(Some(table(alloc, option.is_some(), rows)?))
            }
            (PlainVerb::PoolList, Value::Pools(rows)) => {
                Ok(Some(pools_text(alloc, rows.as_slice())?))
            }
            _ => Ok(None),
        },
        [one, other] => match (verb, one, other) {
            (PlainVerb::NetList, Value::Names(active), Value::Names(inactive)) => Ok(Some(
                networks_text(alloc, active.as_slice(), inactive.as_slice())?,
            )),
            _ => Ok(None),
        },
        _ => Ok(None),
    }
}

// What was defined.
fn defined_text(alloc: Global, verb: FileVerb, values: &[Value]) -> Result<Option<Text>, NoMemory>
    ensures { IfOk result (IsTextOf (Prints (Command.File verb []) None values.now [])) }
{
    let [one] = values else {
        return Ok(None);
    };
    match (verb, one) {
        (FileVerb::NetDefine, Value::Network(network)) => {
            Ok(Some(file_text(alloc, verb, network.as_ref().name.as_str())?))
        }
        (FileVerb::PoolDefine, Value::Pool(pool)) => {
            Ok(Some(file_text(alloc, verb, pool.as_ref().name.as_str())?))
        }
        (_, Value::Domain(domain)) => {
            Ok(Some(file_text(alloc, verb, domain.as_ref().name.as_str())?))
        }
        _ => Ok(None),
    }
}

// What was restored.
fn restored_text(alloc: Global, values: &[Value]) -> Result<Option<Text>, NoMemory>
    ensures { IfOk result (IsTextOf (Prints (Command.Restore []) None values.now [])) }
{
    match values {
        [one] if matches!(one, Value::Nothing) => {
            Ok(Some(Text::copy_of(alloc, "Domain restored\n")?))
        }
        _ => Ok(None),
    }
}

// What was done with a domain and the text of a file.
fn text_done(alloc: Global, verb: DomainFileVerb, answer: &Value) -> Result<Option<Text>, NoMemory>
    ensures { (d : Domain) → IfOk result (IsTextOf (Prints (Command.DomainFile verb [] []) None (Value.Domain d ∷ answer.now ∷ []) [])) }
{
    match answer {
        Value::Nothing => Ok(Some(domain_file_text(alloc, verb, "")?)),
        Value::Name(made) => Ok(Some(domain_file_text(alloc, verb, made.as_str())?)),
        _ => Ok(None),
    }
}

// Nothing is said of what was done.
fn nothing_said(alloc: Global, answer: &Value) -> Result<Option<Text>, NoMemory>
    ensures { (d : Domain) → IfOk result (IsTextOf (Prints (Command.SetMem [] 0) None (Value.Domain d ∷ answer.now ∷ []) [])) }
{
    match answer {
        Value::Nothing => Ok(Some(Text::copy_of(alloc, "")?)),
        _ => Ok(None),
    }
}

// What was made in a pool.
fn made_text(alloc: Global, answer: &Value) -> Result<Option<Text>, NoMemory>
    ensures { (p : Pool) → IfOk result (IsTextOf (Prints (Command.VolCreate [] []) None (Value.Pool p ∷ answer.now ∷ []) [])) }
{
    match answer {
        Value::Name(made) => Ok(Some(done(alloc, "Vol", made.as_str(), "created")?)),
        _ => Ok(None),
    }
}

// What was answered after a domain was looked up; none where there is not that one answer after a domain.
fn domain_answer(values: &[Value]) -> Option<&Value>
    ensures some { IfSome result (λ answer. (d : Domain) × (values.now ≡ Value.Domain d ∷ answer.now ∷ [])) }
    ensures none { IfNone result ((d : Domain) (answer : Answer) → values.now ≡ Value.Domain d ∷ answer ∷ [] → ⊥) }
{
    let [found, answer] = values else {
        return None;
    };
    match found {
        Value::Domain(_) => Some(answer),
        _ => None,
    }
}

// A network that was looked up, and what was answered then.
fn network_answer(values: &[Value]) -> Option<(&NetworkRef, &Value)>
    ensures some { IfSome result (λ x. values.now ≡ Value.Network x.0.now ∷ x.1.now ∷ []) }
    ensures none { IfNone result ((n : Network) (answer : Answer) → values.now ≡ Value.Network n ∷ answer ∷ [] → ⊥) }
{
    let [found, answer] = values else {
        return None;
    };
    match found {
        Value::Network(network) => Some((network.as_ref(), answer)),
        _ => None,
    }
}

// A pool that was looked up, and what was answered then.
fn pool_answer(values: &[Value]) -> Option<(&PoolRef, &Value)>
    ensures some { IfSome result (λ x. values.now ≡ Value.Pool x.0.now ∷ x.1.now ∷ []) }
    ensures none { IfNone result ((p : Pool) (answer : Answer) → values.now ≡ Value.Pool p ∷ answer ∷ [] → ⊥) }
{
    let [found, answer] = values else {
        return None;
    };
    match found {
        Value::Pool(pool) => Some((pool.as_ref(), answer)),
        _ => None,
    }
}

// What a command prints that asked one thing of a domain.
fn of_domain_text(
    alloc: Global,
    command: &Command,
    answer: &Value,
) -> Result<Option<Text>, NoMemory>
    requires { IsOfDomain command.now }
    ensures { (o : Option Flag) (d : Domain) → IfOk result (IsTextOf (Prints command.now o (Value.Domain d ∷ answer.now ∷ []) [])) }
{
    match command {
        Command::Number { .. } => nothing_said(alloc, answer),
        Command::SetMem { .. } => nothing_said(alloc, answer),
        Command::DomainFile { verb, .. } => text_done(alloc, *verb, answer),
        Command::Snapshot { verb, snapshot, .. } => snapshot_text(alloc, *verb, snapshot, answer),
        _ => Ok(None),
    }
}

// What a command prints that asked one thing of a pool.
fn of_pool_text(
    alloc: Global,
    command: &Command,
    pool: &PoolRef,
    answer: &Value,
) -> Result<Option<Text>, NoMemory>
    requires { IsOfPool command.now }
    ensures { (o : Option Flag) → IfOk result (IsTextOf (Prints command.now o (Value.Pool pool.now ∷ answer.now ∷ []) [])) }
{
    match command {
        Command::Pool { verb, .. } => pool_text(alloc, *verb, pool, answer),
        Command::VolCreate { .. } => made_text(alloc, answer),
        Command::Volume { verb, volume, .. } => volume_text(alloc, *verb, volume, answer),
        _ => Ok(None),
    }
}

// What a command prints that looked up a domain, and asked one thing of it.
fn one_of_domain_text(
    alloc: Global,
    command: &Command,
    values: &[Value],
) -> Result<Option<Text>, NoMemory>
    requires { IsOfDomain command.now }
    ensures { (o : Option Flag) → IfOk result (IsTextOf (Prints command.now o values.now [])) }
{
    match domain_answer(values) {
        Some(answer) => of_domain_text(alloc, command, answer),
        None => Ok(None),
    }
}

// What a command prints that looked up a network, and asked one thing of it.
fn one_of_network_text(
    alloc: Global,
    verb: NetworkVerb,
    values: &[Value],
) -> Result<Option<Text>, NoMemory>
    ensures { (o : Option Flag) (name : List ℕ) → IfOk result (IsTextOf (Prints (Command.Network verb name) o values.now [])) }
{
    match network_answer(values) {
        Some((network, answer)) => network_text(alloc, verb, network, answer),
        None => Ok(None),
    }
}

// What a command prints that looked up a pool, and asked one thing of it.
fn one_of_pool_text(
    alloc: Global,
    command: &Command,
    values: &[Value],
) -> Result<Option<Text>, NoMemory>
    requires { IsOfPool command.now }
    ensures { (o : Option Flag) → IfOk result (IsTextOf (Prints command.now o values.now [])) }
{
    match pool_answer(values) {
        Some((pool, answer)) => of_pool_text(alloc, command, pool, answer),
        None => Ok(None),
    }
}

// What a command prints that looked up a domain, by all that was answered.
fn looked_up_text(
    alloc: Global,
    command: &Command,
    option: Option<Flag>,
    values: &[Value],
) -> Result<Option<Text>, NoMemory>
    requires { IsLookedUp command.now }
    ensures { IfOk result (IsTextOf (Prints command.now option values.now [])) }
{
    let [found, more @ ..] = values else {
        return Ok(None);
    };
    match (command, found) {
        (Command::Domain { verb, .. }, Value::Domain(domain)) => {
            domain_text(alloc, *verb, option, domain.as_ref(), more)
        }
        (Command::Image { verb, .. }, Value::Domain(domain)) => {
            image_text(alloc, *verb, domain.as_ref(), more)
        }
        _ => Ok(None),
    }
}

/// What a command prints on standard output once all its calls were answered by these values; none where they are no
/// answers to its calls. Events are printed after this as they come, each by `note_line`.
pub fn text_of(
    alloc: Global,
    command: &Command,
    option: Option<Flag>,
    values: &[Value],
) -> Result<Option<Text>, NoMemory>
    ensures { IfOk result (IsTextOf (Prints command.now option values.now [])) }
{
    match command {
        Command::Plain { verb } => plain_text(alloc, *verb, option, values),
        Command::File { verb, .. } => defined_text(alloc, *verb, values),
        Command::Restore { .. } => restored_text(alloc, values),
        Command::Domain { .. } | Command::Image { .. } => {
            looked_up_text(alloc, command, option, values)
        }
        Command::Network { verb, .. } => one_of_network_text(alloc, *verb, values),
        Command::Pool { .. } | Command::VolCreate { .. } | Command::Volume { .. } => {
            one_of_pool_text(alloc, command, values)
        }
        Command::Events { .. } => Ok(None),
        _ => one_of_domain_text(alloc, command, values),
    }
}
