// The names of elements and attributes.
ghost use Rattle.std.specs.Prelude.{◌≡◌};
ghost use Rattle.text_spec.specs.Vocabulary as spec;

use text_spec::{AttributeName, ElementName};

/// The name of an element.
pub fn element_word(name: ElementName) -> &'static str
    ensures { result.now ≡ spec.element_word name }
{
    match name {
        ElementName::Domain => "domain",
        ElementName::Name => "name",
        ElementName::Uuid => "uuid",
        ElementName::Title => "title",
        ElementName::Description => "description",
        ElementName::Metadata => "metadata",
        ElementName::Guest => "guest",
        ElementName::Memory => "memory",
        ElementName::CurrentMemory => "currentMemory",
        ElementName::Vcpu => "vcpu",
        ElementName::Os => "os",
        ElementName::Type => "type",
        ElementName::Boot => "boot",
        ElementName::OnPoweroff => "on_poweroff",
        ElementName::OnReboot => "on_reboot",
        ElementName::OnCrash => "on_crash",
        ElementName::Devices => "devices",
        ElementName::Emulator => "emulator",
        ElementName::Disk => "disk",
        ElementName::Interface => "interface",
        ElementName::Serial => "serial",
        ElementName::Console => "console",
        ElementName::Graphics => "graphics",
        ElementName::Memballoon => "memballoon",
        ElementName::Driver => "driver",
        ElementName::Source => "source",
        ElementName::Target => "target",
        ElementName::Readonly => "readonly",
        ElementName::Mac => "mac",
        ElementName::Model => "model",
    }
}

/// The name of an attribute.
pub fn attribute_word(name: AttributeName) -> &'static str
    ensures { result.now ≡ spec.attribute_word name }
{
    match name {
        AttributeName::Type => "type",
        AttributeName::Unit => "unit",
        AttributeName::Current => "current",
        AttributeName::Arch => "arch",
        AttributeName::Machine => "machine",
        AttributeName::Dev => "dev",
        AttributeName::Device => "device",
        AttributeName::Name => "name",
        AttributeName::File => "file",
        AttributeName::Pool => "pool",
        AttributeName::Volume => "volume",
        AttributeName::Bus => "bus",
        AttributeName::Address => "address",
        AttributeName::Network => "network",
        AttributeName::Bridge => "bridge",
        AttributeName::Port => "port",
        AttributeName::Model => "model",
    }
}
