// Calls on a domain.
use crate::parts::Same;
use virt_types::Call;

impl Same for Call {
    fn same(&self, other: &Call) -> bool {
        match self {
            Call::Suspend => matches!(other, Call::Suspend),
            Call::Resume => matches!(other, Call::Resume),
            Call::Shutdown => matches!(other, Call::Shutdown),
            Call::Reboot => matches!(other, Call::Reboot),
            Call::Destroy => matches!(other, Call::Destroy),
            Call::Define(it) => match other {
                Call::Define(that) => it.same(that),
                _ => false,
            },
            Call::Undefine => matches!(other, Call::Undefine),
            Call::SetAutostart(it) => match other {
                Call::SetAutostart(that) => *it == *that,
                _ => false,
            },
            Call::SetMemory(it) => match other {
                Call::SetMemory(that) => *it == *that,
                _ => false,
            },
            Call::SetVcpus(it) => match other {
                Call::SetVcpus(that) => *it == *that,
                _ => false,
            },
            Call::Attach(it) => match other {
                Call::Attach(that) => it.same(that),
                _ => false,
            },
            Call::Detach(it) => match other {
                Call::Detach(that) => it.same(that),
                _ => false,
            },
            Call::MemoryStats => matches!(other, Call::MemoryStats),
            Call::Kick(it) => match other {
                Call::Kick(that) => *it == *that,
                _ => false,
            },
            Call::Abort => matches!(other, Call::Abort),
            Call::SnapDelete { name, children } => match other {
                Call::SnapDelete {
                    name: other_name,
                    children: other_children,
                } => name.same(other_name) && *children == *other_children,
                _ => false,
            },
            Call::Limit(it) => match other {
                Call::Limit(that) => *it == *that,
                _ => false,
            },
            Call::Confirm(it) => match other {
                Call::Confirm(that) => *it == *that,
                _ => false,
            },
            Call::Finish(it) => match other {
                Call::Finish(that) => *it == *that,
                _ => false,
            },
            Call::Start => matches!(other, Call::Start),
            Call::Create(it) => match other {
                Call::Create(that) => it.same(that),
                _ => false,
            },
            Call::Restore {
                definition,
                running,
                saved,
            } => match other {
                Call::Restore {
                    definition: other_definition,
                    running: other_running,
                    saved: other_saved,
                } => definition.same(other_definition)
                    && *running == *other_running
                    && saved.same(other_saved),
                _ => false,
            },
            Call::Save(it) => match other {
                Call::Save(that) => it.same(that),
                _ => false,
            },
            Call::Dump(it) => match other {
                Call::Dump(that) => it.same(that),
                _ => false,
            },
            Call::Snapshot(it) => match other {
                Call::Snapshot(that) => it.same(that),
                _ => false,
            },
            Call::Revert(it) => match other {
                Call::Revert(that) => it.same(that),
                _ => false,
            },
            Call::Perform => matches!(other, Call::Perform),
            Call::Prepare {
                definition,
                running,
                saved,
            } => match other {
                Call::Prepare {
                    definition: other_definition,
                    running: other_running,
                    saved: other_saved,
                } => definition.same(other_definition)
                    && *running == *other_running
                    && saved.same(other_saved),
                _ => false,
            },
        }
    }
}
