// The tables of disks and interfaces.
ghost use Rattle.std.specs.Prelude.{◌≡◌};
ghost use Rattle.text_spec.specs.DeviceList as spec;

use text_spec::{AttributeName, Content, DeviceKind, ElementName, Need, Place, Row, Source};

macro_rules! row {
    ($need:ident, $place:expr, $attribute:ident, $content:ident) => {
        Row {
            place: $place,
            source: Source::Attribute(AttributeName::$attribute),
            need: Need::$need,
            content: Content::$content,
        }
    };
}

const DRIVER: Place = Place::Child(ElementName::Driver);

const SOURCE: Place = Place::Child(ElementName::Source);

const TARGET: Place = Place::Child(ElementName::Target);

const MAC: Place = Place::Child(ElementName::Mac);

const MODEL: Place = Place::Child(ElementName::Model);

const DISK: [Row; 10] = [
    row!(Optional, Place::Here, Type, DiskType),
    row!(Optional, Place::Here, Device, DiskDevice),
    row!(Optional, DRIVER, Name, Text),
    row!(Optional, DRIVER, Type, Text),
    row!(Optional, SOURCE, File, Text),
    row!(Optional, SOURCE, Dev, Text),
    row!(Optional, SOURCE, Pool, Text),
    row!(Optional, SOURCE, Volume, Text),
    row!(Needed, TARGET, Dev, Filled),
    row!(Optional, TARGET, Bus, Text),
];

const INTERFACE: [Row; 5] = [
    row!(Needed, Place::Here, Type, InterfaceType),
    row!(Optional, MAC, Address, Mac),
    row!(Optional, SOURCE, Network, Text),
    row!(Optional, SOURCE, Bridge, Text),
    row!(Optional, MODEL, Type, Text),
];

/// The rows of a kind of device.
#[tactic(auto, unfolding(text_spec::specs::DeviceText::disk_rows, text_spec::specs::DeviceText::interface_rows))]
pub(crate) fn rows_for(kind: DeviceKind) -> &'static [Row]
    ensures { result.now ≡ spec.rows_for kind }
{
    match kind {
        DeviceKind::Disk => &DISK,
        DeviceKind::Interface => &INTERFACE,
    }
}

/// The element of a kind of device.
pub(crate) fn element_for(kind: DeviceKind) -> ElementName
    ensures { result ≡ spec.element_for kind }
{
    match kind {
        DeviceKind::Disk => ElementName::Disk,
        DeviceKind::Interface => ElementName::Interface,
    }
}

/// The element that has the key of a device.
pub(crate) fn key_element(kind: DeviceKind) -> ElementName
    ensures { result ≡ spec.key_element kind }
{
    match kind {
        DeviceKind::Disk => ElementName::Target,
        DeviceKind::Interface => ElementName::Mac,
    }
}
