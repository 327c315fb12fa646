// A request for one domain, read.
ghost use Rattle.std.specs.Prelude.{◌≡◌, IfErr, IfOk, None, Ok, OnOk, int_lt, pos};
ghost use Rattle.session_spec.specs.Refused.{refusal};
ghost use Rattle.virt_types.specs.Drawn.{IsMadeOfDrawn};
ghost use Rattle.virt_types.specs.Memory.{UnlessNoMemory};
ghost use Rattle.virt_types.specs.Name.{bad_place};
ghost use Rattle.virt_types.specs.declared.call.Call.TheVariants as call;
ghost use Rattle.virt_types.specs.declared.call.Query.TheVariants as query;
ghost use Rattle.virt_types.specs.Below.types_base.declared.refusal.RefusalCode.TheVariants as code;
ghost use Rattle.domain_requests.specs.Requests.{Fails, IsTaskOf, IsUnnamed, attaches, detaches, IsOutside, named, parsed_as, parsed_plainly, parsed_reads, passed_one, reads, runs, takes, yes_or_no};
ghost use Rattle.domain_requests.specs.declared.task.Parsed.TheVariants as parsed;
ghost use Rattle.domain_requests.specs.Texts.{device_in, snapshot_in};

use crate::numbers::{passed_one, refuse_number};
use crate::refusing::refuse;
use crate::task::{Parsed, Task};
use crate::texts::{read_device, read_snapshot};
use device_xml::fill_device;
use std::alloc::Global;
use virt_types::{
    Boxed, Call, DomainRequest, Name, OrNoMemory, Query, Random, Refusal, RefusalCode, Text,
};

// The name that a text is.
#[tactic(auto, using(crate::proofs::Why::unnamed))]
fn name_of(alloc: Global, text: &Text) -> Result<Name, OrNoMemory<Refusal>>
    ensures value { IfOk result (λ name. name ≡ text.now) }
    ensures good { OnOk result (bad_place text.now ≡ None) }
    ensures bad { IfErr result (IsUnnamed text.now) }
{
    match Name::read(alloc, text.as_bytes()) {
        Ok(name) => Ok(name),
        Err(OrNoMemory::Fault(_)) => {
            Err(refuse(alloc, RefusalCode::InvalidArgument, text.as_str()))
        }
        Err(OrNoMemory::NoMemory) => Err(OrNoMemory::NoMemory),
    }
}

fn attach(alloc: Global, xml: &Text) -> Result<Parsed, OrNoMemory<Refusal>>
    ensures { UnlessNoMemory result (attaches (device_in xml.now)) }
{
    match read_device(alloc, xml.as_bytes()) {
        Ok(device) => Ok(Parsed::Attach(Boxed::new(alloc, device)?)),
        Err(OrNoMemory::Fault(kept)) => {
            Err(refuse(alloc, RefusalCode::BadDefinition, kept.as_str()))
        }
        Err(OrNoMemory::NoMemory) => Err(OrNoMemory::NoMemory),
    }
}

fn detach(alloc: Global, xml: &Text) -> Result<Parsed, OrNoMemory<Refusal>>
    ensures { UnlessNoMemory result (detaches (device_in xml.now)) }
{
    match read_device(alloc, xml.as_bytes()) {
        Ok(device) => {
            let device = Boxed::new(alloc, device)?;
            Ok(Parsed::Ready(Task::Run(Call::Detach(device))))
        }
        Err(OrNoMemory::Fault(kept)) => {
            Err(refuse(alloc, RefusalCode::BadDefinition, kept.as_str()))
        }
        Err(OrNoMemory::NoMemory) => Err(OrNoMemory::NoMemory),
    }
}

fn snapshot(alloc: Global, xml: &Text) -> Result<Parsed, OrNoMemory<Refusal>>
    ensures { UnlessNoMemory result (takes (snapshot_in xml.now)) }
{
    match read_snapshot(alloc, xml.as_bytes()) {
        Ok(info) => {
            let info = Boxed::new(alloc, info)?;
            Ok(Parsed::Ready(Task::Run(Call::Snapshot(info))))
        }
        Err(OrNoMemory::Fault(kept)) => {
            Err(refuse(alloc, RefusalCode::BadDefinition, kept.as_str()))
        }
        Err(OrNoMemory::NoMemory) => Err(OrNoMemory::NoMemory),
    }
}

// Whether a number says yes.
#[tactic(auto, using(crate::proofs::Why::outside))]
fn says_yes(alloc: Global, n: i32) -> Result<bool, OrNoMemory<Refusal>>
    ensures yes { IfOk result (λ yes. yes ≡ int_lt (pos 0) n) }
    ensures ok { OnOk result (passed_one n ≡ None) }
    ensures bad { IfErr result (IsOutside n) }
{
    match passed_one(n) {
        None => Ok(n > 0),
        Some(bound) => Err(refuse_number(alloc, n, bound)),
    }
}

fn autostart(alloc: Global, n: i32) -> Result<Parsed, OrNoMemory<Refusal>>
    ensures { UnlessNoMemory result (yes_or_no n call.SetAutostart) }
{
    match says_yes(alloc, n) {
        Ok(yes) => Ok(Parsed::Ready(Task::Run(Call::SetAutostart(yes)))),
        Err(why) => Err(why),
    }
}

fn confirm(alloc: Global, n: i32) -> Result<Parsed, OrNoMemory<Refusal>>
    ensures { UnlessNoMemory result (yes_or_no n call.Confirm) }
{
    match says_yes(alloc, n) {
        Ok(yes) => Ok(Parsed::Ready(Task::Run(Call::Confirm(yes)))),
        Err(why) => Err(why),
    }
}

fn finish(alloc: Global, n: i32) -> Result<Parsed, OrNoMemory<Refusal>>
    ensures { UnlessNoMemory result (yes_or_no n call.Finish) }
{
    match says_yes(alloc, n) {
        Ok(yes) => Ok(Parsed::Ready(Task::Run(Call::Finish(yes)))),
        Err(why) => Err(why),
    }
}

fn delete(alloc: Global, name: &Text, children: i32) -> Result<Parsed, OrNoMemory<Refusal>>
    ensures { UnlessNoMemory result (named name.now (yes_or_no children (λ all. call.SnapDelete name.now all))) }
{
    match name_of(alloc, name) {
        Ok(name) => match says_yes(alloc, children) {
            Ok(children) => {
                let name = Boxed::new(alloc, name)?;
                Ok(Parsed::Ready(Task::Run(Call::SnapDelete { name, children })))
            }
            Err(why) => {
                drop(name);
                Err(why)
            }
        },
        Err(why) => Err(why),
    }
}

fn revert(alloc: Global, name: &Text) -> Result<Parsed, OrNoMemory<Refusal>>
    ensures { UnlessNoMemory result (named name.now (runs (call.Revert name.now))) }
{
    match name_of(alloc, name) {
        Ok(name) => Ok(Parsed::Ready(Task::Run(Call::Revert(name)))),
        Err(why) => Err(why),
    }
}

fn parent(alloc: Global, name: &Text) -> Result<Parsed, OrNoMemory<Refusal>>
    ensures { UnlessNoMemory result (named name.now (reads (query.SnapParent name.now))) }
{
    match name_of(alloc, name) {
        Ok(name) => Ok(Parsed::Ready(Task::Read(Query::SnapParent(name)))),
        Err(why) => Err(why),
    }
}

fn description(alloc: Global, name: &Text) -> Result<Parsed, OrNoMemory<Refusal>>
    ensures { UnlessNoMemory result (named name.now (reads (query.SnapText name.now))) }
{
    match name_of(alloc, name) {
        Ok(name) => Ok(Parsed::Ready(Task::Read(Query::SnapText(name)))),
        Err(why) => Err(why),
    }
}

fn dump(alloc: Global, to: &Text) -> Result<Parsed, OrNoMemory<Refusal>>
    ensures { UnlessNoMemory result (named to.now (runs (call.Dump to.now))) }
{
    match name_of(alloc, to) {
        Ok(name) => Ok(Parsed::Ready(Task::Run(Call::Dump(name)))),
        Err(why) => Err(why),
    }
}

fn save(alloc: Global, to: &Text) -> Result<Parsed, OrNoMemory<Refusal>>
    ensures { UnlessNoMemory result (named to.now (runs (call.Save to.now))) }
{
    match name_of(alloc, to) {
        Ok(name) => Ok(Parsed::Ready(Task::Run(Call::Save(name)))),
        Err(why) => Err(why),
    }
}

// A request that reads the domain, or is about the caller's registration.
fn read_of(request: &DomainRequest) -> Task
    ensures { parsed_reads request.now ≡ Ok (parsed.Ready result) }
{
    match request {
        DomainRequest::GetXmlDesc { flags } => Task::Read(Query::Text {
            stored: *flags % 4 > 1,
        }),
        DomainRequest::GetAutostart => Task::Read(Query::Autostart),
        DomainRequest::GetInfo => Task::Read(Query::Info),
        DomainRequest::JobInfo => Task::Read(Query::JobInfo),
        DomainRequest::SnapList => Task::Read(Query::SnapNames),
        DomainRequest::EventRegister => Task::Register,
        _ => Task::Deregister,
    }
}

// A request without a text, a name, or a number that says yes or no.
fn plain(request: &DomainRequest) -> Task
    ensures { parsed_plainly request.now ≡ Ok (parsed.Ready result) }
{
    match request {
        DomainRequest::Create => Task::Run(Call::Start),
        DomainRequest::Destroy => Task::Run(Call::Destroy),
        DomainRequest::Resume => Task::Run(Call::Resume),
        DomainRequest::Suspend => Task::Run(Call::Suspend),
        DomainRequest::Shutdown => Task::Run(Call::Shutdown),
        DomainRequest::Reboot { .. } => Task::Run(Call::Reboot),
        DomainRequest::Undefine => Task::Run(Call::Undefine),
        DomainRequest::SetMemory { memory } => Task::Run(Call::SetMemory(*memory)),
        DomainRequest::SetVcpus { vcpus } => Task::Run(Call::SetVcpus(*vcpus)),
        DomainRequest::JobAbort => Task::Run(Call::Abort),
        DomainRequest::MemoryStats => Task::Run(Call::MemoryStats),
        DomainRequest::Kick { action } => Task::Run(Call::Kick(*action)),
        DomainRequest::MigratePerform => Task::Run(Call::Perform),
        DomainRequest::MigrateLimit { rest } => Task::Run(Call::Limit(*rest)),
        other => read_of(other),
    }
}

/// What a request for one domain is. It is refused where a name is none, a number that says yes or no is
/// another, or a text has no reading, in this order; nobody has looked at the domain then.
pub fn parse(alloc: Global, request: &DomainRequest) -> Result<Parsed, OrNoMemory<Refusal>>
    ensures { UnlessNoMemory result (parsed_as request.now) }
{
    match request {
        DomainRequest::AttachDevice { xml } => attach(alloc, xml),
        DomainRequest::DetachDevice { xml } => detach(alloc, xml),
        DomainRequest::SnapCreate { xml } => snapshot(alloc, xml),
        DomainRequest::SetAutostart { autostart: n } => autostart(alloc, *n),
        DomainRequest::MigrateConfirm { verdict } => confirm(alloc, *verdict),
        DomainRequest::MigrateFinish { go } => finish(alloc, *go),
        DomainRequest::SnapDelete { snapshot, children } => delete(alloc, snapshot, *children),
        DomainRequest::SnapRevert { snapshot } => revert(alloc, snapshot),
        DomainRequest::SnapParent { snapshot } => parent(alloc, snapshot),
        DomainRequest::SnapXml { snapshot } => description(alloc, snapshot),
        DomainRequest::CoreDump { to, .. } => dump(alloc, to),
        DomainRequest::Save { to } => save(alloc, to),
        DomainRequest::Create
        | DomainRequest::Destroy
        | DomainRequest::GetXmlDesc { .. }
        | DomainRequest::GetAutostart
        | DomainRequest::GetInfo
        | DomainRequest::Reboot { .. }
        | DomainRequest::Resume
        | DomainRequest::SetMemory { .. }
        | DomainRequest::SetVcpus { .. }
        | DomainRequest::Shutdown
        | DomainRequest::Suspend
        | DomainRequest::Undefine
        | DomainRequest::JobInfo
        | DomainRequest::JobAbort
        | DomainRequest::SnapList
        | DomainRequest::EventRegister
        | DomainRequest::EventDeregister
        | DomainRequest::MemoryStats
        | DomainRequest::Kick { .. }
        | DomainRequest::MigratePerform
        | DomainRequest::MigrateLimit { .. } => Ok(Parsed::Ready(plain(request))),
    }
}

/// What is asked, once a device that is to be attached has what it lacked: an interface without an address
/// gets one of the next word. No other words are drawn.
pub fn task_of<R: Random>(parsed: Parsed, random: &mut R) -> Task
    ensures { IsMadeOfDrawn (λ words. IsTaskOf words parsed result) (R.drawn random.old) (R.drawn random.new) }
{
    match parsed {
        Parsed::Attach(mut device) => {
            fill_device(device.as_mut(), random);
            Task::Run(Call::Attach(device))
        }
        Parsed::Ready(task) => task,
    }
}
