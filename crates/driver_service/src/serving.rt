// Which procedures a driver serves.
ghost use Rattle.std.specs.Prelude.{◌≡◌};
ghost use Rattle.driver_service.specs.Serving as spec;

use procedure_spec::Procedure;

// Those of networks and their leases.
fn is_of_network(procedure: Procedure) -> bool
    ensures { result ≡ spec.is_of_network procedure }
{
    matches!(
        procedure,
        Procedure::ConnectListDefinedNetworks
            | Procedure::ConnectListNetworks
            | Procedure::NetworkCreate
            | Procedure::NetworkDefineXml
            | Procedure::NetworkDestroy
            | Procedure::NetworkGetXmlDesc
            | Procedure::NetworkLookupByName
            | Procedure::NetworkSetAutostart
            | Procedure::NetworkUndefine
            | Procedure::Leases
    )
}

// Those of pools.
fn is_of_pool(procedure: Procedure) -> bool
    ensures { result ≡ spec.is_of_pool procedure }
{
    matches!(
        procedure,
        Procedure::PoolDefine
            | Procedure::PoolCreate
            | Procedure::PoolDestroy
            | Procedure::PoolUndefine
            | Procedure::PoolXml
            | Procedure::PoolLookup
            | Procedure::PoolList
            | Procedure::PoolAutostart
    )
}

// Those of volumes.
fn is_of_volume(procedure: Procedure) -> bool
    ensures { result ≡ spec.is_of_volume procedure }
{
    matches!(
        procedure,
        Procedure::VolCreate | Procedure::VolDelete | Procedure::VolList | Procedure::VolXml
    )
}

// Those of registrations.
fn is_of_registration(procedure: Procedure) -> bool
    ensures { result ≡ spec.is_of_registration procedure }
{
    matches!(
        procedure,
        Procedure::EventRegister | Procedure::EventDeregister
    )
}

/// Whether a driver serves it: those of domains and of the connection, but no registrations, networks and pools.
pub fn is_served(procedure: Procedure) -> bool
    ensures { result ≡ spec.is_served procedure }
{
    let is_other = is_of_network(procedure) || (is_of_pool(procedure) || is_of_volume(procedure));
    !is_other && !is_of_registration(procedure)
}
