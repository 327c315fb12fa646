// What calls are answered.
use crate::parts::Same;
use virt_types::{
    DomainRef, DomainRow, MigratedGuest, MigratedText, NetworkRef, PoolRef, PoolRow, Reply,
    TitleRow, Value,
};

impl Same for DomainRef {
    fn same(&self, other: &DomainRef) -> bool {
        self.name.same(&other.name) && self.uuid.same(&other.uuid) && self.id == other.id
    }
}

impl Same for NetworkRef {
    fn same(&self, other: &NetworkRef) -> bool {
        self.name.same(&other.name) && self.uuid.same(&other.uuid)
    }
}

impl Same for PoolRef {
    fn same(&self, other: &PoolRef) -> bool {
        self.name.same(&other.name) && self.uuid.same(&other.uuid)
    }
}

impl Same for DomainRow {
    fn same(&self, other: &DomainRow) -> bool {
        self.domain.same(&other.domain) && self.state == other.state
    }
}

impl Same for PoolRow {
    fn same(&self, other: &PoolRow) -> bool {
        self.name.same(&other.name) && self.uuid.same(&other.uuid) && self.active == other.active
    }
}

impl Same for TitleRow {
    fn same(&self, other: &TitleRow) -> bool {
        self.name.same(&other.name) && self.title.same(&other.title)
    }
}

impl Same for MigratedGuest {
    fn same(&self, other: &MigratedGuest) -> bool {
        self.definition.same(&other.definition)
            && self.running == other.running
            && self.state.same(&other.state)
    }
}

impl Same for MigratedText {
    fn same(&self, other: &MigratedText) -> bool {
        self.definition.same(&other.definition)
            && self.running == other.running
            && self.state.same(&other.state)
    }
}

impl Same for Value {
    fn same(&self, other: &Value) -> bool {
        match self {
            Value::Nothing => matches!(other, Value::Nothing),
            Value::Domain(it) => match other {
                Value::Domain(that) => it.same(that),
                _ => false,
            },
            Value::Network(it) => match other {
                Value::Network(that) => it.same(that),
                _ => false,
            },
            Value::Pool(it) => match other {
                Value::Pool(that) => it.same(that),
                _ => false,
            },
            Value::Text(it) => match other {
                Value::Text(that) => it.same(that),
                _ => false,
            },
            Value::Autostart(it) => match other {
                Value::Autostart(that) => *it == *that,
                _ => false,
            },
            Value::Info(it) => match other {
                Value::Info(that) => it.same(that),
                _ => false,
            },
            Value::Names(it) => match other {
                Value::Names(that) => it.same(that),
                _ => false,
            },
            Value::Domains(it) => match other {
                Value::Domains(that) => it.same(that),
                _ => false,
            },
            Value::Pools(it) => match other {
                Value::Pools(that) => it.same(that),
                _ => false,
            },
            Value::Job(it) => match other {
                Value::Job(that) => it.same(that),
                _ => false,
            },
            Value::Name(it) => match other {
                Value::Name(that) => it.same(that),
                _ => false,
            },
            Value::Parent(it) => match other {
                Value::Parent(that) => it.same(that),
                _ => false,
            },
            Value::Memory(it) => match other {
                Value::Memory(that) => *it == *that,
                _ => false,
            },
            Value::Leases(it) => match other {
                Value::Leases(that) => it.same(that),
                _ => false,
            },
            Value::Titles(it) => match other {
                Value::Titles(that) => it.same(that),
                _ => false,
            },
            Value::MigratedText(it) => match other {
                Value::MigratedText(that) => it.same(that),
                _ => false,
            },
            Value::Reference(it) => match other {
                Value::Reference(that) => it.same(that),
                _ => false,
            },
            Value::Definition(it) => match other {
                Value::Definition(that) => it.same(that),
                _ => false,
            },
            Value::Live(it) => match other {
                Value::Live(that) => it.same(that),
                _ => false,
            },
            Value::Snapshot(it) => match other {
                Value::Snapshot(that) => it.same(that),
                _ => false,
            },
            Value::MigratedGuest(it) => match other {
                Value::MigratedGuest(that) => it.same(that),
                _ => false,
            },
        }
    }
}

impl Same for Reply {
    fn same(&self, other: &Reply) -> bool {
        match self {
            Reply::Ok(it) => match other {
                Reply::Ok(that) => it.same(that),
                _ => false,
            },
            Reply::No(it) => match other {
                Reply::No(that) => it.same(that),
                _ => false,
            },
        }
    }
}
