// Files in a map, as both forms of files in memory load and store them.
ghost use Rattle.std.specs.Prelude.{◌≡◌, ◌≢◌, ◌+◌, ℕ, List, Some, take, IfOk, OnOk, OnErr};
ghost use Rattle.std.specs.Option.{option_map};
ghost use Rattle.hy_base.specs.Memory.{bytes_under};

use crate::NoMemory;
use indexmap::IndexMap;
use std::alloc::Global;

// The first `most + 1` bytes of what a name stands for.
pub(crate) fn load_front(
    alloc: Global,
    contents: &IndexMap<String, Vec<u8>>,
    name: &str,
    most: u32,
) -> Result<Option<Vec<u8>>, NoMemory>
    ensures { IfOk result (λ found. option_map (λ front. front.items) found ≡ option_map (take (most + 1)) (bytes_under contents.now name.now)) }
{
    match contents.get(name) {
        Some(bytes) => {
            let count = bytes.len().min(most as usize + 1);
            let front = Vec::from_slice(alloc, &bytes[..count])?;
            Ok(Some(front))
        }
        None => Ok(None),
    }
}

// Lets a name stand for a copy of these bytes.
pub(crate) fn store_copy(
    alloc: Global,
    contents: &mut IndexMap<String, Vec<u8>>,
    name: &str,
    bytes: &[u8],
) -> Result<(), NoMemory>
    ensures stored { OnOk result (bytes_under contents.new name.now ≡ Some bytes.now) }
    ensures others { OnOk result ((n : List ℕ) → n ≢ name.now → bytes_under contents.new n ≡ bytes_under contents.old n) }
    ensures unchanged { OnErr result ((n : List ℕ) → bytes_under contents.new n ≡ bytes_under contents.old n) }
{
    let key = String::from_str(alloc, name)?;
    let copy = Vec::from_slice(alloc, bytes)?;
    contents.insert(key, copy)?;
    Ok(())
}
