// Addresses as values of attributes: of the network (IPv4) and of interfaces.
ghost use Rattle.std.specs.Prelude.{◌≡◌, option_map};
ghost use Rattle.types_base.specs.Memory.{UnlessNoMemory};
ghost use Rattle.xml_tables.specs.Rows.{at, needed};
ghost use Rattle.network_xml.specs.NetworkText as spec;

use crate::subnet::ones_of;
use procedure_spec::address_of;
use std::alloc::Global;
use text_spec::{DefFault, DefKind};
use types_base::{Mac, OrNoMemory, Text};
use xml_tables::fault_at_path;
use xml_words::{mac_of, read_number};

/// An address that has to be there.
///
/// The fault is `Missing` where it is absent, `BadValue` where the text is no address.
pub(crate) fn needed_address(
    alloc: Global,
    path: &str,
    text: Option<&Text>,
) -> Result<u32, OrNoMemory<DefFault>>
    ensures { UnlessNoMemory result (needed path.now spec.address_value (option_map (λ t. t.now) text.entry)) }
{
    match text {
        None => Err(fault_at_path(alloc, path, DefKind::Missing)),
        Some(text) => match address_of(text.as_str()) {
            Some(address) => Ok(address),
            None => Err(fault_at_path(alloc, path, DefKind::BadValue)),
        },
    }
}

/// The same of an interface's address.
pub(crate) fn needed_mac(
    alloc: Global,
    path: &str,
    text: Option<&Text>,
) -> Result<Mac, OrNoMemory<DefFault>>
    ensures { UnlessNoMemory result (needed path.now spec.mac_value (option_map (λ t. t.now) text.entry)) }
{
    match text {
        None => Err(fault_at_path(alloc, path, DefKind::Missing)),
        Some(text) => match mac_of(text.as_bytes()) {
            Some(mac) => Ok(mac),
            None => Err(fault_at_path(alloc, path, DefKind::BadValue)),
        },
    }
}

/// A prefix is a number from 1 to 30.
fn test_prefix(prefix: Option<u64>) -> Result<u32, DefKind>
    ensures { result ≡ spec.a_prefix prefix }
{
    match prefix {
        None => Err(DefKind::BadValue),
        Some(prefix @ 1..=30) => Ok(prefix as u32),
        Some(_) => Err(DefKind::Range),
    }
}

fn prefix_value(text: &Text) -> Result<u32, DefKind>
    ensures { result ≡ spec.prefix_value text.now }
{
    test_prefix(read_number(text.as_str()))
}

fn mask_value(text: &Text) -> Result<u32, DefKind>
    ensures { result ≡ spec.mask_value text.now }
{
    match address_of(text.as_str()) {
        None => Err(DefKind::BadValue),
        Some(mask) => test_prefix(ones_of(mask).map(u64::from)),
    }
}

fn kind_at<T>(
    alloc: Global,
    path: &str,
    value: Result<T, DefKind>,
) -> Result<T, OrNoMemory<DefFault>>
    ensures { UnlessNoMemory result (at path.now value) }
{
    match value {
        Ok(value) => Ok(value),
        Err(kind) => Err(fault_at_path(alloc, path, kind)),
    }
}

/// The prefix of a network: that of its netmask, or where it has none its prefix as a number.
///
/// The fault is `Missing` where both are absent, `BadValue` where the text is no mask or no number,
/// `Range` where the prefix is none of 1 to 30.
pub(crate) fn prefix_of(
    alloc: Global,
    mask: Option<&Text>,
    prefix: Option<&Text>,
) -> Result<u32, OrNoMemory<DefFault>>
    ensures { UnlessNoMemory result (spec.prefix_of (option_map (λ t. t.now) mask.entry) (option_map (λ t. t.now) prefix.entry)) }
{
    match (mask, prefix) {
        (Some(mask), _) => kind_at(alloc, "/network/ip", mask_value(mask)),
        (None, Some(prefix)) => kind_at(alloc, "/network/ip", prefix_value(prefix)),
        (None, None) => Err(fault_at_path(alloc, "/network/ip", DefKind::Missing)),
    }
}
