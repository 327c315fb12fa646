// Requests: what a session is asked, one variant for each procedure of the two programs' tables.
use crate::object_request::{DomainRequest, NetworkRequest, PoolRequest};
use crate::reference::{DomainTarget, NetworkTarget, PoolTarget};
use types_base::{Bytes, ListOf, NoMemory, Text, TryCopy, both};
use uuid::Uuid;

/// What a session is asked. The procedures that are for one domain, network or pool are in an enum
/// of their own, after the reference that is the first argument of each. Numbers and texts are as the
/// wire has them: whether they are in their range is tested where the request is served.
pub enum Request {
    /// `CONNECT_OPEN`, 1.
    ConnectOpen {
        /// What the caller wants to be joined to. It is passed over.
        name: Option<Text>,
        /// Passed over.
        flags: u32,
    },
    /// `CONNECT_CLOSE`, 2.
    ConnectClose,
    /// `DOMAIN_CREATE_XML`, 10.
    DomainCreateXml {
        /// The definition's text.
        xml: Text,
        /// Passed over.
        flags: i32,
    },
    /// `DOMAIN_DEFINE_XML`, 11.
    DomainDefineXml {
        /// The definition's text.
        xml: Text,
    },
    /// `CONNECT_LIST_DEFINED_DOMAINS`, 21.
    ListDefinedDomains {
        /// How many names are wanted at most, 0 to 1,024.
        most: i32,
    },
    /// `DOMAIN_LOOKUP_BY_NAME`, 23.
    DomainLookupByName {
        /// What is looked for.
        name: Text,
    },
    /// `DOMAIN_LOOKUP_BY_UUID`, 24.
    DomainLookupByUuid {
        /// What is looked for.
        uuid: Uuid,
    },
    /// `CONNECT_LIST_DEFINED_NETWORKS`, 36.
    ListDefinedNetworks {
        /// How many names are wanted at most, 0 to 1,024.
        most: i32,
    },
    /// `CONNECT_LIST_NETWORKS`, 38.
    ListNetworks {
        /// How many names are wanted at most, 0 to 1,024.
        most: i32,
    },
    /// `NETWORK_DEFINE_XML`, 41.
    NetworkDefineXml {
        /// The definition's text.
        xml: Text,
    },
    /// `NETWORK_LOOKUP_BY_NAME`, 46.
    NetworkLookupByName {
        /// What is looked for.
        name: Text,
    },
    /// `DOMAIN_RESTORE`, 54.
    DomainRestore {
        /// The name of the file.
        from: Text,
    },
    /// `LIST_ALL`, 1 of the second program.
    ListAll,
    /// `TITLES`, 16 of the second program.
    Titles,
    /// `POOL_DEFINE`, 20 of the second program.
    PoolDefine {
        /// The definition's text.
        xml: Text,
    },
    /// `POOL_LOOKUP`, 25 of the second program.
    PoolLookup {
        /// What is looked for.
        name: Text,
    },
    /// `POOL_LIST`, 26 of the second program.
    PoolList,
    /// `MIGRATE_PREPARE`, 52 of the second program.
    MigratePrepare {
        /// The definition's text.
        xml: Text,
        /// 1 where the guest ran on the host that it leaves, else 0.
        running: i32,
        /// The state of the guest.
        state: Bytes,
    },
    /// A procedure for one domain.
    OnDomain {
        /// The domain.
        domain: DomainTarget,
        /// What is asked of it.
        request: DomainRequest,
    },
    /// A procedure for one network.
    OnNetwork {
        /// The network.
        network: NetworkTarget,
        /// What is asked of it.
        request: NetworkRequest,
    },
    /// A procedure for one pool.
    OnPool {
        /// The pool.
        pool: PoolTarget,
        /// What is asked of it.
        request: PoolRequest,
    },
}

impl Drop for Request {
    fn drop(self) {
        match self {
            Request::ConnectOpen { name: _, flags: _ } => {}
            Request::ConnectClose => {}
            Request::DomainCreateXml { xml: _, flags: _ } => {}
            Request::DomainDefineXml { xml: _ } => {}
            Request::ListDefinedDomains { most: _ } => {}
            Request::DomainLookupByName { name: _ } => {}
            Request::DomainLookupByUuid { uuid: _ } => {}
            Request::ListDefinedNetworks { most: _ } => {}
            Request::ListNetworks { most: _ } => {}
            Request::NetworkDefineXml { xml: _ } => {}
            Request::NetworkLookupByName { name: _ } => {}
            Request::DomainRestore { from: _ } => {}
            Request::ListAll => {}
            Request::Titles => {}
            Request::PoolDefine { xml: _ } => {}
            Request::PoolLookup { name: _ } => {}
            Request::PoolList => {}
            Request::MigratePrepare {
                xml: _,
                running: _,
                state: _,
            } => {}
            Request::OnDomain {
                domain: _,
                request: _,
            } => {}
            Request::OnNetwork {
                network: _,
                request: _,
            } => {}
            Request::OnPool {
                pool: _,
                request: _,
            } => {}
        }
    }
}

/// Requests in order.
pub type RequestList = ListOf<Request>;

impl TryCopy for Request {
    fn copy(&self) -> Result<Request, NoMemory> {
        Ok(match self {
            Request::ConnectOpen { name, flags } => Request::ConnectOpen {
                name: name.copy()?,
                flags: *flags,
            },
            Request::ConnectClose => Request::ConnectClose,
            Request::DomainCreateXml { xml, flags } => Request::DomainCreateXml {
                xml: xml.copy()?,
                flags: *flags,
            },
            Request::DomainDefineXml { xml } => Request::DomainDefineXml { xml: xml.copy()? },
            Request::ListDefinedDomains { most } => Request::ListDefinedDomains { most: *most },
            Request::DomainLookupByName { name } => Request::DomainLookupByName {
                name: name.copy()?,
            },
            Request::DomainLookupByUuid { uuid } => Request::DomainLookupByUuid { uuid: *uuid },
            Request::ListDefinedNetworks { most } => Request::ListDefinedNetworks { most: *most },
            Request::ListNetworks { most } => Request::ListNetworks { most: *most },
            Request::NetworkDefineXml { xml } => Request::NetworkDefineXml { xml: xml.copy()? },
            Request::NetworkLookupByName { name } => Request::NetworkLookupByName {
                name: name.copy()?,
            },
            Request::DomainRestore { from } => Request::DomainRestore { from: from.copy()? },
            Request::ListAll => Request::ListAll,
            Request::Titles => Request::Titles,
            Request::PoolDefine { xml } => Request::PoolDefine { xml: xml.copy()? },
            Request::PoolLookup { name } => Request::PoolLookup { name: name.copy()? },
            Request::PoolList => Request::PoolList,
            Request::MigratePrepare {
                xml,
                running,
                state,
            } => {
                let (xml, state) = both(xml.copy(), state.copy())?;
                Request::MigratePrepare {
                    xml,
                    running: *running,
                    state,
                }
            }
            Request::OnDomain { domain, request } => {
                let (domain, request) = both(domain.copy(), request.copy())?;
                Request::OnDomain { domain, request }
            }
            Request::OnNetwork { network, request } => Request::OnNetwork {
                network: network.copy()?,
                request: *request,
            },
            Request::OnPool { pool, request } => {
                let (pool, request) = both(pool.copy(), request.copy())?;
                Request::OnPool { pool, request }
            }
        })
    }
}
