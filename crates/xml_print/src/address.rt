// The element of an address.
ghost use Rattle.std.specs.Prelude.{◌≡◌, ◌++◌, ◌∷◌, ◌<◌, [], IfOk, OnOk};
ghost use Rattle.std.specs.Char.{digit_char};
ghost use Rattle.std.specs.String.{string_bytes};
ghost use Rattle.text_spec.specs.Tree.{seen};
ghost use Rattle.xml_print.specs.LiveText as spec;

use std::alloc::Global;
use text_spec::{PairList, Tree};
use virt_types::{NoMemory, Text};
use xml_tables::{push_worth, spelled};

fn push_digit(out: &mut String, digit: u8) -> Result<(), NoMemory>
    requires { digit < 16 }
    ensures { OnOk result (string_bytes out.new ≡ string_bytes out.old ++ digit_char digit ∷ []) }
{
    let digit = if digit < 10 {
        b'0' + digit
    } else {
        b'a' + (digit - 10)
    };
    out.push(char::from(digit))?;
    Ok(())
}

/// A slot as a byte in hexadecimal.
fn slot_word(alloc: Global, slot: u32) -> Result<Text, NoMemory>
    ensures { IfOk result (λ word. word ≡ spec.slot_word slot) }
{
    let byte = (slot % 256) as u8;
    let mut word = String::from_str(alloc, "0x")?;
    push_digit(&mut word, byte / 16)?;
    push_digit(&mut word, byte % 16)?;
    Ok(Text::of(word))
}

#[tactic(auto, unfolding(crate::specs::LiveText::address_pairs))]
fn address_pairs(alloc: Global, slot: u32) -> Result<PairList, NoMemory>
    ensures { IfOk result (λ pairs. pairs ≡ spec.address_pairs slot) }
{
    let word = slot_word(alloc, slot)?;
    let mut pairs = PairList::new(alloc);
    push_worth(alloc, &mut pairs, "type", "pci")?;
    push_worth(alloc, &mut pairs, "domain", "0x0000")?;
    push_worth(alloc, &mut pairs, "bus", "0x00")?;
    push_worth(alloc, &mut pairs, "slot", word.as_str())?;
    push_worth(alloc, &mut pairs, "function", "0x0")?;
    Ok(pairs)
}

/// The address of a slot.
#[tactic(auto, unfolding(crate::specs::LiveText::address_tree))]
pub(crate) fn address_tree(alloc: Global, slot: u32) -> Result<Tree, NoMemory>
    ensures { IfOk result (λ t. seen t ≡ spec.address_tree slot) }
{
    let attributes = address_pairs(alloc, slot)?;
    spelled(alloc, "address", attributes, "", Vec::new(alloc))
}
