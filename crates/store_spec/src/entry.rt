// What the store keeps of one definition.
use virt_types::{Name, NoMemory, Text, TryCopy, both};

/// What the store keeps of one definition, under its kind and identifier.
#[derive(Drop)]
pub struct Entry {
    /// The object's name.
    pub name: Name,
    /// Whether the daemon starts the object when it starts itself.
    pub autostart: bool,
    /// The definition's title up to its first line feed; empty where it has none, and of files of
    /// version 1.
    pub title: Text,
    /// The definition's text.
    pub text: Text,
}

impl TryCopy for Entry {
    fn copy(&self) -> Result<Entry, NoMemory> {
        let (name, (title, text)) = both(
            self.name.copy(),
            both(self.title.copy(), self.text.copy()),
        )?;
        Ok(Entry {
            name,
            autostart: self.autostart,
            title,
            text,
        })
    }
}
