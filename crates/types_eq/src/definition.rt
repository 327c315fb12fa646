// Definitions of domains.
ghost use Rattle.std.specs.Prelude.{◌↔◌, IsTrue};
ghost use Rattle.types_eq.specs.Groups.{AreBootedAlike, AreBuiltAlike, AreNamedAlike, AreShownAlike, AreSizedAlike};

use crate::parts::Same;
use virt_types::{CharacterDevice, DomainDef, Graphics, Memballoon, Os, Script};

impl Same for Script {
    fn same(&self, other: &Script) -> bool {
        self.text.same(&other.text) && self.entries.same(&other.entries)
    }
}

impl Same for Os {
    fn same(&self, other: &Os) -> bool {
        self.kind.same(&other.kind)
            && self.arch.same(&other.arch)
            && self.machine.same(&other.machine)
            && self.boot.same(&other.boot)
    }
}

impl Same for CharacterDevice {
    fn same(&self, other: &CharacterDevice) -> bool {
        self.kind.same(&other.kind)
    }
}

impl Same for Graphics {
    fn same(&self, other: &Graphics) -> bool {
        self.kind.same(&other.kind) && self.port.same(&other.port)
    }
}

impl Same for Memballoon {
    fn same(&self, other: &Memballoon) -> bool {
        self.model.same(&other.model)
    }
}

fn are_named_alike(one: &DomainDef, other: &DomainDef) -> bool
    ensures { IsTrue result ↔ AreNamedAlike one.now other.now }
{
    one.kind == other.kind
        && one.name.same(&other.name)
        && one.uuid.same(&other.uuid)
        && one.title.same(&other.title)
        && one.description.same(&other.description)
}

fn are_sized_alike(one: &DomainDef, other: &DomainDef) -> bool
    ensures { IsTrue result ↔ AreSizedAlike one.now other.now }
{
    one.guest.same(&other.guest)
        && one.memory == other.memory
        && one.current_memory == other.current_memory
        && one.vcpus == other.vcpus
        && one.current_vcpus == other.current_vcpus
}

fn are_booted_alike(one: &DomainDef, other: &DomainDef) -> bool
    ensures { IsTrue result ↔ AreBootedAlike one.now other.now }
{
    one.os.same(&other.os)
        && one.on_poweroff == other.on_poweroff
        && one.on_reboot == other.on_reboot
        && one.on_crash == other.on_crash
}

fn are_built_alike(one: &DomainDef, other: &DomainDef) -> bool
    ensures { IsTrue result ↔ AreBuiltAlike one.now other.now }
{
    one.emulator.same(&other.emulator)
        && one.disks.same(&other.disks)
        && one.interfaces.same(&other.interfaces)
}

fn are_shown_alike(one: &DomainDef, other: &DomainDef) -> bool
    ensures { IsTrue result ↔ AreShownAlike one.now other.now }
{
    one.serials.same(&other.serials)
        && one.consoles.same(&other.consoles)
        && one.graphics.same(&other.graphics)
        && one.memballoon.same(&other.memballoon)
}

impl Same for DomainDef {
    fn same(&self, other: &DomainDef) -> bool {
        are_named_alike(self, other)
            && are_sized_alike(self, other)
            && are_booted_alike(self, other)
            && are_built_alike(self, other)
            && are_shown_alike(self, other)
    }
}
