ghost use Rattle.std.specs.Prelude.{◌≡◌, ◌≢◌, ◌<◌, ◌^◌, [], length, map, string_bytes, AllPairs, Contains, IfOk, OnOk, IfSome, IfNone, slice_get, Some};

use geo_rect::{NoMemory, Text};
use indexmap::IndexSet;
use std::alloc::Global;
use std::marker::Model;

/// A list of names, no two of them alike, that finds a name's place without a scan.
#[derive(Drop)]
pub struct NameIndex {
    names: IndexSet<String>,
}

impl Model for NameIndex {
    ghost use Rattle.std.specs.Prelude.{List as Names, ℕ, map, string_bytes};

    ghost Value = { Names (Names ℕ) };

    ghost view = { λ i. map string_bytes i.names.keys };
}

impl NameIndex {
    /// The index of these names.
    pub fn of(alloc: Global, names: &[Text]) -> Result<NameIndex, NoMemory>
        requires { AllPairs (λ a b. a ≢ b) names.now }
        ensures { IfOk result (λ index. index ≡ names.now) }
    {
        let mut table = IndexSet::new(alloc);
        put_names(alloc, &mut table, names)?;
        Ok(NameIndex { names: table })
    }

    /// The place of a name, from 0.
    pub fn find(&self, name: &str) -> Option<u32>
        requires { length self.now < 2 ^ 32 }
        ensures some { IfSome result (λ i. slice_get self.now i ≡ Some name.now) }
        ensures none { IfNone result (Contains self.now name.now → ⊥) }
    {
        let i = self.names.get_index_of(name)?;
        Some(i as u32)
    }
}

/// Puts these names into an empty table.
fn put_names(alloc: Global, table: &mut IndexSet<String>, names: &[Text]) -> Result<(), NoMemory>
    requires empty { table.old.keys ≡ [] }
    requires apart { AllPairs (λ a b. a ≢ b) names.now }
    ensures { OnOk result (map string_bytes table.new.keys ≡ names.now) }
{
    for name in names {
        table.insert(String::from_str(alloc, name.as_str())?)?;
    }
    Ok(())
}

/// The indices of two lists of names.
pub fn two_of(
    alloc: Global,
    one: &[Text],
    other: &[Text],
) -> Result<(NameIndex, NameIndex), NoMemory>
    requires one { AllPairs (λ a b. a ≢ b) one.now }
    requires other { AllPairs (λ a b. a ≢ b) other.now }
    ensures one { IfOk result (λ two. two.0 ≡ one.now) }
    ensures other { IfOk result (λ two. two.1 ≡ other.now) }
{
    let first = NameIndex::of(alloc, one)?;
    let second = NameIndex::of(alloc, other)?;
    Ok((first, second))
}
