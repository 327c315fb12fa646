// Plain values, which `==` compares.
use crate::parts::Same;
use virt_types::{
    BootDevice, DomainInfo, EndReason, Front, Job, JobInfo, LeaseRow, Mac, OpKind, Phase, RunState,
    ScriptEntry, Transition, Uuid, Who,
};

impl Same for bool {
    fn same(&self, other: &bool) -> bool {
        *self == *other
    }
}

impl Same for u32 {
    fn same(&self, other: &u32) -> bool {
        *self == *other
    }
}

impl Same for i32 {
    fn same(&self, other: &i32) -> bool {
        *self == *other
    }
}

impl Same for u64 {
    fn same(&self, other: &u64) -> bool {
        *self == *other
    }
}

impl Same for Uuid {
    fn same(&self, other: &Uuid) -> bool {
        *self == *other
    }
}

impl Same for Mac {
    fn same(&self, other: &Mac) -> bool {
        *self == *other
    }
}

impl Same for BootDevice {
    fn same(&self, other: &BootDevice) -> bool {
        *self == *other
    }
}

impl Same for DomainInfo {
    fn same(&self, other: &DomainInfo) -> bool {
        *self == *other
    }
}

impl Same for EndReason {
    fn same(&self, other: &EndReason) -> bool {
        *self == *other
    }
}

impl Same for Front {
    fn same(&self, other: &Front) -> bool {
        *self == *other
    }
}

impl Same for Job {
    fn same(&self, other: &Job) -> bool {
        *self == *other
    }
}

impl Same for JobInfo {
    fn same(&self, other: &JobInfo) -> bool {
        *self == *other
    }
}

impl Same for LeaseRow {
    fn same(&self, other: &LeaseRow) -> bool {
        *self == *other
    }
}

impl Same for OpKind {
    fn same(&self, other: &OpKind) -> bool {
        *self == *other
    }
}

impl Same for Phase {
    fn same(&self, other: &Phase) -> bool {
        *self == *other
    }
}

impl Same for RunState {
    fn same(&self, other: &RunState) -> bool {
        *self == *other
    }
}

impl Same for ScriptEntry {
    fn same(&self, other: &ScriptEntry) -> bool {
        *self == *other
    }
}

impl Same for Transition {
    fn same(&self, other: &Transition) -> bool {
        *self == *other
    }
}

impl Same for Who {
    fn same(&self, other: &Who) -> bool {
        *self == *other
    }
}
