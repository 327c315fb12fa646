// Values of a domain's cell, as replies have them.
ghost use Rattle.std.specs.Prelude.{◌≡◌, IfNone, IfOk, IfSome};
ghost use Rattle.reply_texts.specs.Printed.{printed, told};
ghost use Rattle.virt_types.specs.declared.value.Value.TheVariants as value;

use domain_texts::{print_domain, print_live};
use snapshot_xml::print_kept;
use std::alloc::Global;
use virt_types::{Boxed, MigratedGuest, MigratedText, NoMemory, Reply, TryCopy, Value};

// The text of a guest that leaves, with its state.
fn print_guest(alloc: Global, guest: &MigratedGuest) -> Result<MigratedText, NoMemory>
    ensures { IfOk result (λ text. printed (value.MigratedGuest guest.now) ≡ value.MigratedText text) }
{
    let definition = print_domain(alloc, &guest.definition)?;
    let state = guest.state.copy()?;
    Ok(MigratedText {
        definition,
        running: guest.running,
        state,
    })
}

// What is told in place of a value that no reply has; none where it is told as it is.
fn in_place_of(alloc: Global, value: &Value) -> Result<Option<Value>, NoMemory>
    ensures some { IfOk result (λ it. IfSome it (λ v. v ≡ printed value.now)) }
    ensures none { IfOk result (λ it. IfNone it (printed value.now ≡ value.now)) }
{
    Ok(match value {
        Value::Reference(row) => {
            Some(Value::Domain(Boxed::copy_of(alloc, &row.as_ref().domain)?))
        }
        Value::Definition(def) => Some(Value::Text(print_domain(alloc, def.as_ref())?)),
        Value::Live(live) => Some(Value::Text(print_live(alloc, live.as_ref())?)),
        Value::Snapshot(snap) => Some(Value::Text(print_kept(alloc, snap.as_ref())?)),
        Value::MigratedGuest(guest) => {
            let text = print_guest(alloc, guest.as_ref())?;
            Some(Value::MigratedText(Boxed::new(alloc, text)?))
        }
        _ => None,
    })
}

// What is told in place of a reply; none where it is told as it is.
fn reply_in_place_of(alloc: Global, reply: &Reply) -> Result<Option<Reply>, NoMemory>
    ensures some { IfOk result (λ it. IfSome it (λ r. r ≡ told reply.now)) }
    ensures none { IfOk result (λ it. IfNone it (told reply.now ≡ reply.now)) }
{
    match reply {
        Reply::Ok(value) => match in_place_of(alloc, value)? {
            Some(told) => Ok(Some(Reply::Ok(told))),
            None => Ok(None),
        },
        Reply::No(_) => Ok(None),
    }
}

/// A reply of a domain's cell as its caller is told it: a reference without what lists alone give; a definition, a running
/// domain, a snapshot and a guest that leaves by their texts; and any other as it is.
pub fn print_reply(alloc: Global, reply: Reply) -> Result<Reply, NoMemory>
    ensures { IfOk result (λ r. r ≡ told reply) }
{
    match reply_in_place_of(alloc, &reply)? {
        Some(told) => Ok(told),
        None => Ok(reply),
    }
}
