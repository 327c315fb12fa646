// What is reported of domains without a call, and what queries ask.
use crate::parts::Same;
use virt_types::{DomainState, Note, Query, Status};

impl Same for DomainState {
    fn same(&self, other: &DomainState) -> bool {
        *self == *other
    }
}

impl Same for Note {
    fn same(&self, other: &Note) -> bool {
        match self {
            Note::Event {
                name,
                uuid,
                transition,
            } => match other {
                Note::Event {
                    name: that_name,
                    uuid: that_uuid,
                    transition: that_transition,
                } => name.same(that_name)
                    && uuid.same(that_uuid)
                    && transition.same(that_transition),
                _ => false,
            },
            Note::Lost { name, uuid } => match other {
                Note::Lost {
                    name: that_name,
                    uuid: that_uuid,
                } => name.same(that_name) && uuid.same(that_uuid),
                _ => false,
            },
        }
    }
}

impl Same for Query {
    fn same(&self, other: &Query) -> bool {
        match self {
            Query::Reference => matches!(other, Query::Reference),
            Query::Text { stored } => match other {
                Query::Text {
                    stored: that_stored,
                } => stored.same(that_stored),
                _ => false,
            },
            Query::Autostart => matches!(other, Query::Autostart),
            Query::Info => matches!(other, Query::Info),
            Query::JobInfo => matches!(other, Query::JobInfo),
            Query::SnapNames => matches!(other, Query::SnapNames),
            Query::SnapParent(it) => match other {
                Query::SnapParent(that) => it.same(that),
                _ => false,
            },
            Query::SnapText(it) => match other {
                Query::SnapText(that) => it.same(that),
                _ => false,
            },
        }
    }
}

impl Same for Status {
    fn same(&self, other: &Status) -> bool {
        self.uuid.same(&other.uuid)
            && self.name.same(&other.name)
            && self.boot.same(&other.boot)
            && self.state.same(&other.state)
            && self.op.same(&other.op)
            && self.phase.same(&other.phase)
    }
}
