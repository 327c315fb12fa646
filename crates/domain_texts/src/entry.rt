// What a store keeps of a definition.
ghost use Rattle.std.specs.Prelude.{◌≡◌, ◌≤◌, IfOk, OnOk, length, nat_le, false};
ghost use Rattle.store_spec.specs.DefinitionFile.{has_feed};
ghost use Rattle.session_spec.specs.DefinitionText.{text_of};
ghost use Rattle.domain_texts.specs.Kept.{entry_of};
ghost use Rattle.domain_texts.specs.Title.{title_of};

use crate::title::{title_of, titles_are_lines};
use std::alloc::Global;
use store_spec::Entry;
use types_base::{DomainDef, Name, NoMemory, Text, TryCopy, both};

/// The text of a definition.
pub fn print_domain(alloc: Global, def: &DomainDef) -> Result<Text, NoMemory>
    ensures { IfOk result (λ text. text ≡ text_of def.now) }
{
    domain_xml::print_domain(alloc, def)
}

/// The entry of a definition: its name, the flag, its title and its text.
pub fn entry_of(alloc: Global, def: &DomainDef, autostart: bool) -> Result<Entry, NoMemory>
    ensures entry { IfOk result (λ e. e ≡ entry_of def.now autostart) }
    ensures line { IfOk result (λ e. has_feed e.title ≡ false) }
{
    titles_are_lines(def);
    let text = print_domain(alloc, def);
    let title = Text::copy_of(alloc, title_of(def));
    let (name, (title, text)) = both(def.name.copy(), both(title, text))?;
    Ok(Entry {
        name,
        autostart,
        title,
        text,
    })
}
