// The title of a definition, as a store gives it.
ghost use Rattle.std.specs.Prelude.{◌≡◌, false};
ghost use Rattle.store_spec.specs.DefinitionFile.{has_feed};
ghost use Rattle.domain_texts.specs.Title.{first_line, title_of};

use types_base::DomainDef;

// A text up to its first line feed.
fn first_line(text: &str) -> &str
    ensures { result.now ≡ first_line text.now }
{
    match text.split_once('\n') {
        Some((front, _)) => front,
        None => text,
    }
}

/// The title of a definition up to its first line feed; empty where it has none.
pub fn title_of(def: &DomainDef) -> &str
    ensures { result.now ≡ title_of def.now }
{
    match &def.title {
        Some(title) => first_line(title.as_str()),
        None => "",
    }
}

/// A title is one line.
pub fn titles_are_lines(def: &DomainDef)
    ensures { has_feed (title_of def.now) ≡ false }
{
    let _title = &def.title;
}
