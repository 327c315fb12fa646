// What was written reads back.
ghost use Rattle.std.specs.Prelude.{◌≡◌, Ok};
ghost use Rattle.text_spec.specs.Text.{read_of};
ghost use Rattle.text_spec.specs.Tree.{Tree};
ghost use Rattle.text_spec.specs.Written.{written};
ghost use Rattle.text_spec.specs.Writable.{IsWritable};

/// What is written of a tree that reading can give is read as that tree.
pub fn written_reads_back()
    ensures { (t : Tree) → IsWritable t → read_of (written t) ≡ Ok t }
{}
