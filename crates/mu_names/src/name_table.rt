//! Symbol tables: lists of names, each with an entry.

ghost use Rattle.std.specs.Prelude.{◌≡◌, OnOk};
ghost use Rattle.mu_names.specs.NameTables.{added_at, entry_at};

use std::alloc::AllocError;
use std::collections::BTreeMap;

/// Adds an entry for a new name. An existing entry is unchanged. Errors: allocation failure.
pub fn add<'a, X: Copy + Drop>(
    table: &mut BTreeMap<&'a [u8], X>,
    name: &'a [u8],
    value: X,
) -> Result<(), AllocError>
    ensures { OnOk result (entry_at table.new ≡ added_at (entry_at table.old) name.now value) }
{
    match find(table, name) {
        Some(_) => Ok(()),
        None => {
            table.insert(name, value)?;
            Ok(())
        }
    }
}

/// Returns the entry of a name.
pub fn find<X: Copy>(table: &BTreeMap<&[u8], X>, name: &[u8]) -> Option<X>
    ensures { result ≡ entry_at table.now name.now }
{
    match table.get(name) {
        Some(value) => Some(*value),
        None => None,
    }
}
