// What a session is asked.
use crate::parts::Same;
use virt_types::{
    DomainRequest, DomainTarget, NetworkRequest, NetworkTarget, PoolRequest, PoolTarget, Request,
};

impl Same for DomainTarget {
    fn same(&self, other: &DomainTarget) -> bool {
        self.name.same(&other.name) && self.uuid.same(&other.uuid) && self.id.same(&other.id)
    }
}

impl Same for NetworkTarget {
    fn same(&self, other: &NetworkTarget) -> bool {
        self.name.same(&other.name) && self.uuid.same(&other.uuid)
    }
}

impl Same for PoolTarget {
    fn same(&self, other: &PoolTarget) -> bool {
        self.name.same(&other.name) && self.uuid.same(&other.uuid)
    }
}

impl Same for NetworkRequest {
    fn same(&self, other: &NetworkRequest) -> bool {
        *self == *other
    }
}

impl Same for DomainRequest {
    fn same(&self, other: &DomainRequest) -> bool {
        match self {
            DomainRequest::AttachDevice { xml } => match other {
                DomainRequest::AttachDevice { xml: that_xml } => xml.same(that_xml),
                _ => false,
            },
            DomainRequest::Create => matches!(other, DomainRequest::Create),
            DomainRequest::Destroy => matches!(other, DomainRequest::Destroy),
            DomainRequest::DetachDevice { xml } => match other {
                DomainRequest::DetachDevice { xml: that_xml } => xml.same(that_xml),
                _ => false,
            },
            DomainRequest::GetXmlDesc { flags } => match other {
                DomainRequest::GetXmlDesc { flags: that_flags } => flags.same(that_flags),
                _ => false,
            },
            DomainRequest::GetAutostart => matches!(other, DomainRequest::GetAutostart),
            DomainRequest::GetInfo => matches!(other, DomainRequest::GetInfo),
            DomainRequest::Reboot { flags } => match other {
                DomainRequest::Reboot { flags: that_flags } => flags.same(that_flags),
                _ => false,
            },
            DomainRequest::Resume => matches!(other, DomainRequest::Resume),
            DomainRequest::SetAutostart { autostart } => match other {
                DomainRequest::SetAutostart {
                    autostart: that_autostart,
                } => autostart.same(that_autostart),
                _ => false,
            },
            DomainRequest::SetMemory { memory } => match other {
                DomainRequest::SetMemory {
                    memory: that_memory,
                } => memory.same(that_memory),
                _ => false,
            },
            DomainRequest::SetVcpus { vcpus } => match other {
                DomainRequest::SetVcpus { vcpus: that_vcpus } => vcpus.same(that_vcpus),
                _ => false,
            },
            DomainRequest::Shutdown => matches!(other, DomainRequest::Shutdown),
            DomainRequest::Suspend => matches!(other, DomainRequest::Suspend),
            DomainRequest::Undefine => matches!(other, DomainRequest::Undefine),
            DomainRequest::CoreDump { to, flags } => match other {
                DomainRequest::CoreDump {
                    to: that_to,
                    flags: that_flags,
                } => to.same(that_to) && flags.same(that_flags),
                _ => false,
            },
            DomainRequest::Save { to } => match other {
                DomainRequest::Save { to: that_to } => to.same(that_to),
                _ => false,
            },
            DomainRequest::JobInfo => matches!(other, DomainRequest::JobInfo),
            DomainRequest::JobAbort => matches!(other, DomainRequest::JobAbort),
            DomainRequest::SnapCreate { xml } => match other {
                DomainRequest::SnapCreate { xml: that_xml } => xml.same(that_xml),
                _ => false,
            },
            DomainRequest::SnapList => matches!(other, DomainRequest::SnapList),
            DomainRequest::SnapParent { snapshot } => match other {
                DomainRequest::SnapParent {
                    snapshot: that_snapshot,
                } => snapshot.same(that_snapshot),
                _ => false,
            },
            DomainRequest::SnapDelete { snapshot, children } => match other {
                DomainRequest::SnapDelete {
                    snapshot: that_snapshot,
                    children: that_children,
                } => snapshot.same(that_snapshot) && children.same(that_children),
                _ => false,
            },
            DomainRequest::SnapRevert { snapshot } => match other {
                DomainRequest::SnapRevert {
                    snapshot: that_snapshot,
                } => snapshot.same(that_snapshot),
                _ => false,
            },
            DomainRequest::SnapXml { snapshot } => match other {
                DomainRequest::SnapXml {
                    snapshot: that_snapshot,
                } => snapshot.same(that_snapshot),
                _ => false,
            },
            DomainRequest::EventRegister => matches!(other, DomainRequest::EventRegister),
            DomainRequest::EventDeregister => matches!(other, DomainRequest::EventDeregister),
            DomainRequest::MemoryStats => matches!(other, DomainRequest::MemoryStats),
            DomainRequest::Kick { action } => match other {
                DomainRequest::Kick {
                    action: that_action,
                } => action.same(that_action),
                _ => false,
            },
            DomainRequest::MigratePerform => matches!(other, DomainRequest::MigratePerform),
            DomainRequest::MigrateConfirm { verdict } => match other {
                DomainRequest::MigrateConfirm {
                    verdict: that_verdict,
                } => verdict.same(that_verdict),
                _ => false,
            },
            DomainRequest::MigrateFinish { go } => match other {
                DomainRequest::MigrateFinish { go: that_go } => go.same(that_go),
                _ => false,
            },
            DomainRequest::MigrateLimit { rest } => match other {
                DomainRequest::MigrateLimit { rest: that_rest } => rest.same(that_rest),
                _ => false,
            },
        }
    }
}

impl Same for PoolRequest {
    fn same(&self, other: &PoolRequest) -> bool {
        match self {
            PoolRequest::Create => matches!(other, PoolRequest::Create),
            PoolRequest::Destroy => matches!(other, PoolRequest::Destroy),
            PoolRequest::Undefine => matches!(other, PoolRequest::Undefine),
            PoolRequest::Xml => matches!(other, PoolRequest::Xml),
            PoolRequest::SetAutostart { autostart } => match other {
                PoolRequest::SetAutostart {
                    autostart: that_autostart,
                } => autostart.same(that_autostart),
                _ => false,
            },
            PoolRequest::VolCreate { xml } => match other {
                PoolRequest::VolCreate { xml: that_xml } => xml.same(that_xml),
                _ => false,
            },
            PoolRequest::VolDelete { volume } => match other {
                PoolRequest::VolDelete {
                    volume: that_volume,
                } => volume.same(that_volume),
                _ => false,
            },
            PoolRequest::VolList => matches!(other, PoolRequest::VolList),
            PoolRequest::VolXml { volume } => match other {
                PoolRequest::VolXml {
                    volume: that_volume,
                } => volume.same(that_volume),
                _ => false,
            },
        }
    }
}

impl Same for Request {
    fn same(&self, other: &Request) -> bool {
        match self {
            Request::ConnectOpen { name, flags } => match other {
                Request::ConnectOpen {
                    name: that_name,
                    flags: that_flags,
                } => name.same(that_name) && flags.same(that_flags),
                _ => false,
            },
            Request::ConnectClose => matches!(other, Request::ConnectClose),
            Request::DomainCreateXml { xml, flags } => match other {
                Request::DomainCreateXml {
                    xml: that_xml,
                    flags: that_flags,
                } => xml.same(that_xml) && flags.same(that_flags),
                _ => false,
            },
            Request::DomainDefineXml { xml } => match other {
                Request::DomainDefineXml { xml: that_xml } => xml.same(that_xml),
                _ => false,
            },
            Request::ListDefinedDomains { most } => match other {
                Request::ListDefinedDomains { most: that_most } => most.same(that_most),
                _ => false,
            },
            Request::DomainLookupByName { name } => match other {
                Request::DomainLookupByName { name: that_name } => name.same(that_name),
                _ => false,
            },
            Request::DomainLookupByUuid { uuid } => match other {
                Request::DomainLookupByUuid { uuid: that_uuid } => uuid.same(that_uuid),
                _ => false,
            },
            Request::ListDefinedNetworks { most } => match other {
                Request::ListDefinedNetworks { most: that_most } => most.same(that_most),
                _ => false,
            },
            Request::ListNetworks { most } => match other {
                Request::ListNetworks { most: that_most } => most.same(that_most),
                _ => false,
            },
            Request::NetworkDefineXml { xml } => match other {
                Request::NetworkDefineXml { xml: that_xml } => xml.same(that_xml),
                _ => false,
            },
            Request::NetworkLookupByName { name } => match other {
                Request::NetworkLookupByName { name: that_name } => name.same(that_name),
                _ => false,
            },
            Request::DomainRestore { from } => match other {
                Request::DomainRestore { from: that_from } => from.same(that_from),
                _ => false,
            },
            Request::ListAll => matches!(other, Request::ListAll),
            Request::Titles => matches!(other, Request::Titles),
            Request::PoolDefine { xml } => match other {
                Request::PoolDefine { xml: that_xml } => xml.same(that_xml),
                _ => false,
            },
            Request::PoolLookup { name } => match other {
                Request::PoolLookup { name: that_name } => name.same(that_name),
                _ => false,
            },
            Request::PoolList => matches!(other, Request::PoolList),
            Request::MigratePrepare {
                xml,
                running,
                state,
            } => match other {
                Request::MigratePrepare {
                    xml: that_xml,
                    running: that_running,
                    state: that_state,
                } => xml.same(that_xml) && running.same(that_running) && state.same(that_state),
                _ => false,
            },
            Request::OnDomain { domain, request } => match other {
                Request::OnDomain {
                    domain: that_domain,
                    request: that_request,
                } => domain.same(that_domain) && request.same(that_request),
                _ => false,
            },
            Request::OnNetwork { network, request } => match other {
                Request::OnNetwork {
                    network: that_network,
                    request: that_request,
                } => network.same(that_network) && request.same(that_request),
                _ => false,
            },
            Request::OnPool { pool, request } => match other {
                Request::OnPool {
                    pool: that_pool,
                    request: that_request,
                } => pool.same(that_pool) && request.same(that_request),
                _ => false,
            },
        }
    }
}
