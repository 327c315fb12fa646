// Devices on their own.
ghost use Rattle.text_spec.specs.Fill.{IsDeviceFilledBy};
ghost use Rattle.types_base.specs.Drawn.{IsMadeOfDrawn};

use crate::mac::{local_mac, tail_of};
use types_base::{DeviceDef, Random};

/// Gives the device an address: an interface without one gets 52:54:00 and the low three bytes of the
/// next word. What is there stays, and no word is drawn for it.
pub fn fill_device<R: Random>(device: &mut DeviceDef, random: &mut R)
    ensures { IsMadeOfDrawn (λ words. IsDeviceFilledBy words device.old device.new)
        (R.drawn random.old) (R.drawn random.new) }
{
    match device {
        DeviceDef::Disk(_) => {}
        DeviceDef::Interface(interface) => {
            if interface.mac.is_none() {
                interface.mac = Some(local_mac(tail_of(random.word())));
            }
        }
    }
}
