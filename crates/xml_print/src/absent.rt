// What replaces an identifier or an address that a definition does not have yet.
ghost use Rattle.std.specs.Prelude.{◌≡◌, Option, Some, unwrap_or};
ghost use Rattle.text_spec.specs.DevicePrinted.{any_mac};
ghost use Rattle.text_spec.specs.DomainPrinted.{any_uuid};
ghost use Rattle.xml_print.specs.Absent.{uuid_as, mac_as};

use virt_types::{Mac, Uuid};

/// What is done with an identifier or an address that a definition does not have yet.
#[derive(Clone, Copy, Debug, PartialEq, Eq)]
pub enum Absent {
    /// It is left out.
    Omitted,
    /// Another one stands in for it, so that the text is as long as it will be once it is filled in.
    StoodIn,
}

impl Absent {
    /// The identifier that is spelled.
    pub(crate) fn uuid(self, uuid: Option<Uuid>) -> Option<Uuid>
        ensures { result ≡ uuid_as self uuid }
    {
        match self {
            Absent::Omitted => uuid,
            Absent::StoodIn => Some(uuid.unwrap_or(Uuid::nil())),
        }
    }

    /// The address that is spelled.
    pub(crate) fn mac(self, mac: Option<Mac>) -> Option<Mac>
        ensures { result ≡ mac_as self mac }
    {
        match self {
            Absent::Omitted => mac,
            Absent::StoodIn => Some(mac.unwrap_or(Mac { bytes: [0; 6] })),
        }
    }
}
