// The table of domains.
ghost use Rattle.std.specs.Prelude.{◌≡◌};
ghost use Rattle.text_spec.specs.DomainText as spec;

use text_spec::{AttributeName, Content, ElementName, Need, Place, Row, Source};

macro_rules! text {
    ($need:ident, $place:expr, $content:ident) => {
        Row {
            place: $place,
            source: Source::Text,
            need: Need::$need,
            content: Content::$content,
        }
    };
}

macro_rules! attribute {
    ($need:ident, $place:expr, $attribute:ident, $content:ident) => {
        Row {
            place: $place,
            source: Source::Attribute(AttributeName::$attribute),
            need: Need::$need,
            content: Content::$content,
        }
    };
}

macro_rules! child {
    ($name:ident) => {
        Place::Child(ElementName::$name)
    };
}

macro_rules! inside {
    ($outer:ident, $name:ident) => {
        Place::Inside(ElementName::$outer, ElementName::$name)
    };
}

const DOMAIN: [Row; 18] = [
    attribute!(Needed, Place::Here, Type, DomainType),
    text!(Needed, child!(Name), Name),
    text!(Optional, child!(Uuid), Uuid),
    text!(Optional, child!(Title), Text),
    text!(Optional, child!(Description), Text),
    text!(Optional, inside!(Metadata, Guest), Script),
    text!(Needed, child!(Memory), Memory),
    text!(Optional, child!(CurrentMemory), Memory),
    text!(Optional, child!(Vcpu), Vcpus),
    attribute!(Optional, child!(Vcpu), Current, CurrentVcpus),
    text!(Needed, inside!(Os, Type), Text),
    attribute!(Optional, inside!(Os, Type), Arch, Text),
    attribute!(Optional, inside!(Os, Type), Machine, Text),
    attribute!(Each, inside!(Os, Boot), Dev, BootDevice),
    text!(Optional, child!(OnPoweroff), LifecycleAction),
    text!(Optional, child!(OnReboot), LifecycleAction),
    text!(Optional, child!(OnCrash), CrashAction),
    text!(Optional, inside!(Devices, Emulator), Text),
];

/// The rows of a domain.
#[tactic(auto, unfolding(text_spec::specs::DomainText::domain_rows))]
pub(crate) fn rows() -> &'static [Row]
    ensures { result.now ≡ spec.domain_rows }
{
    &DOMAIN
}
