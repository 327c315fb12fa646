// What reading gives can be written.
ghost use Rattle.std.specs.Prelude.{◌≡◌, ℕ, List, Ok};
ghost use Rattle.text_spec.specs.Text.{read_of};
ghost use Rattle.text_spec.specs.Tree.{Tree};
ghost use Rattle.text_laws.specs.Formed.{IsFormed};

/// Every tree that reading gives is formed as one that can be written: names are names, no name
/// comes twice in a tag, values and texts are characters, no text has a blank at an end, and there
/// are at most 32 levels and 4,096 elements.
pub fn read_is_writable()
    ensures { (bytes : List ℕ) (t : Tree) → read_of bytes ≡ Ok t → IsFormed t }
{}
