// The names of a directory's files, in order.
ghost use Rattle.std.specs.Prelude.{◌≡◌, ◌≤◌, IfOk, IsErrOf, map};
ghost use Rattle.std.specs.List.Sorted.{IsPermutation};
ghost use Rattle.std.specs.String.{string_bytes};
ghost use Rattle.outside_spec.specs.Faults.{Rose};
ghost use Rattle.virt_types.specs.Below.types_base.declared.memory.Fault.TheVariants as fault;
ghost use Rattle.files_disk.specs.Telling.{IsListed};
ghost use Rattle.def_keeper.specs.Opening.{IsInOrder};

use files_disk::Files;
use std::alloc::Global;
use virt_types::{Fault, ListOf, NoMemory, Text, TextList};

// The names as strings, which have an order.
fn strings_of(alloc: Global, names: &[Text]) -> Result<Vec<String>, NoMemory>
    ensures { IfOk result (λ strings. map string_bytes strings.items ≡ names.now) }
{
    let mut strings = Vec::new(alloc);
    for name in names {
        strings.push(String::from_str(alloc, name.as_str())?)?;
    }
    Ok(strings)
}

fn texts_of(alloc: Global, strings: &[String]) -> Result<TextList, NoMemory>
    ensures { IfOk result (λ texts. texts ≡ map string_bytes strings.now) }
{
    let mut texts = ListOf::new(alloc);
    for string in strings {
        texts.push(Text::copy_of(alloc, string.as_str())?)?;
    }
    Ok(texts)
}

// The same names in order.
fn in_order(alloc: Global, names: &[Text]) -> Result<TextList, NoMemory>
    ensures ordered { IfOk result IsInOrder }
    ensures same { IfOk result (IsPermutation names.now) }
{
    let mut strings = strings_of(alloc, names)?;
    strings.sort_unstable();
    texts_of(alloc, strings.as_slice())
}

/// The names of all files, in order.
pub(crate) fn listed<F: Files>(alloc: Global, files: &mut F) -> Result<TextList, Fault>
    ensures names { IfOk result (λ names. IsListed (F.told files.old) names) }
    ensures ordered { IfOk result IsInOrder }
    ensures told { F.told files.new ≡ F.told files.old }
    ensures cause { IsErrOf result fault.Failed → Rose (F.faults files.old) (F.faults files.new) }
    ensures faults { F.faults files.old ≤ F.faults files.new }
{
    match files.list() {
        Ok(names) => match in_order(alloc, names.as_slice()) {
            Ok(names) => Ok(names),
            Err(NoMemory) => Err(Fault::NoMemory),
        },
        Err(Fault::Failed) => Err(Fault::Failed),
        Err(Fault::NoMemory) => Err(Fault::NoMemory),
    }
}
