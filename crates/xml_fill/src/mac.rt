// Addresses of interfaces.
ghost use Rattle.std.specs.Prelude.{◌≡◌, ◌<◌, ◌%◌, ◌∷◌, [], length};
ghost use Rattle.xml_fill.specs.Chosen.{IsMacChosen};
ghost use Rattle.text_spec.specs.Fill as spec;
ghost use Rattle.types_base.specs.Drawn.{IsMadeOfDrawn};

use types_base::{Interface, Mac, Random};

/// How many addresses the range 52:54:00 has.
const TAILS: u32 = 1 << 24;

/// The low three bytes of a word.
pub(crate) fn tail_of(word: u64) -> u32
    ensures value { result ≡ word % spec.tails }
    ensures within { result < spec.tails }
{
    (word % TAILS as u64) as u32
}

/// The address 52:54:00 with three further bytes.
#[tactic(auto, unfolding(text_spec::specs::Fill::local_mac))]
pub(crate) fn local_mac(tail: u32) -> Mac
    requires { tail < spec.tails }
    ensures { result ≡ spec.local_mac tail }
{
    let high = (tail >> 16) as u8;
    let middle = ((tail >> 8) & 0xff) as u8;
    let low = (tail & 0xff) as u8;
    Mac {
        bytes: [0x52, 0x54, 0x00, high, middle, low],
    }
}

/// Whether an interface has this address.
#[tactic(auto, unfolding(text_spec::specs::Fill::has_mac))]
fn has_mac(interface: &Interface, mac: Mac) -> bool
    ensures { result ≡ spec.has_mac mac interface.now }
{
    match interface.mac {
        Some(own) => own.bytes.as_slice() == mac.bytes.as_slice(),
        None => false,
    }
}

/// Whether one of these interfaces has this address.
fn is_taken(interfaces: &[Interface], mac: Mac) -> bool
    ensures { result ≡ spec.is_taken interfaces.now mac }
{
    interfaces.iter().any(|interface| has_mac(interface, mac))
}

/// The next address of the range.
fn next_tail(tail: u32) -> u32
    requires { tail < spec.tails }
    ensures value { result ≡ spec.next_tail tail }
    ensures within { result < spec.tails }
{
    (tail + 1) % TAILS
}

/// Raised by one until no interface has it.
fn raised(interfaces: &[Interface], start: u32) -> u32
    requires { start < spec.tails }
    ensures value { result ≡ spec.raised spec.tails interfaces.now start }
    ensures within { result < spec.tails }
{
    let mut tail = start;
    let mut left = TAILS;
    while left > 0 && is_taken(interfaces, local_mac(tail)) {
        tail = next_tail(tail);
        left -= 1;
    }
    tail
}

/// The address of a word that none of these interfaces has.
fn mac_among(interfaces: &[Interface], word: u64) -> Mac
    ensures { result ≡ spec.mac_among interfaces.now word }
{
    local_mac(raised(interfaces, tail_of(word)))
}

/// The address of the interface at a place, or a new one.
fn mac_or_new<R: Random>(interfaces: &[Interface], place: usize, random: &mut R) -> Mac
    requires { place < length interfaces.now }
    ensures { IsMadeOfDrawn (λ words. IsMacChosen words interfaces.now place result)
        (R.drawn random.old) (R.drawn random.new) }
{
    match interfaces[place].mac {
        Some(mac) => mac,
        None => mac_among(interfaces, random.word()),
    }
}

/// Gives each interface that has no address one of the next word.
pub(crate) fn fill_macs<R: Random>(interfaces: &mut [Interface], random: &mut R)
    ensures { IsMadeOfDrawn (λ words. spec.AreMacsFilled words [] interfaces.old interfaces.new)
        (R.drawn random.old) (R.drawn random.new) }
{
    for place in 0..interfaces.len() {
        let mac = mac_or_new(interfaces, place, random);
        interfaces[place].mac = Some(mac);
    }
}
