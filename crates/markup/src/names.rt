// The names in one tag: each of them once.
ghost use Rattle.std.specs.Prelude.{◌≡◌, ℕ, List, not, ◌||◌, IfOk, OnOk};
ghost use Rattle.std.specs.Str.{bytes_eq};
ghost use Rattle.markup.specs.Names.{has};

use std::collections::BTreeSet;
use types_base::NoMemory;

/// Adds a name, and says whether it is new.
pub(crate) fn add_name<'a>(
    names: &mut BTreeSet<&'a [char]>,
    name: &'a [char],
) -> Result<bool, NoMemory>
    ensures fresh { IfOk result (λ fresh. fresh ≡ not (has names.old name.now)) }
    ensures added { OnOk result ((other : List ℕ) → has names.new other
        ≡ (bytes_eq name.now other || has names.old other)) }
{
    Ok(names.insert(name)?)
}
