// Domains in the order of their names.
ghost use Rattle.std.specs.Prelude.{◌≡◌, ◌≤◌, IfOk, length};
ghost use Rattle.found_domains.specs.Found.{IsByName, has_same_name};

use crate::found::FoundDomain;
use types_base::{ListOf, NoMemory};

fn is_same_name(one: &FoundDomain, other: &FoundDomain) -> bool
    ensures { result ≡ has_same_name one.now other.now }
{
    one.definition.name.as_bytes() == other.definition.name.as_bytes()
}

/// Of these domains one of each name, by rising name.
pub(crate) fn by_name(domains: ListOf<FoundDomain>) -> Result<ListOf<FoundDomain>, NoMemory>
    ensures domains { IfOk result (λ risen. IsByName domains risen) }
    ensures few { IfOk result (λ risen. length risen ≤ length domains) }
{
    let mut all = domains.into_vec();
    all.sort_by(|one, other| {
        one.definition
            .name
            .as_str()
            .cmp(other.definition.name.as_str())
    })?;
    all.dedup_by(|one, other| is_same_name(one, other));
    Ok(ListOf::of(all))
}
