//! Names, each of which is kept once and known by a number.
ghost use Rattle.std.specs.Prelude.{◌≡◌, ◌-◌, ◌^◌, ◌<◌, [], length, Some, IfOk, IfSome, OnOk, OnErr};
ghost use Rattle.std.specs.List.{slice_get};
ghost use Rattle.path_names.specs.Interned.{id_of, interned, number_of};
ghost use Rattle.path_names.specs.LastPath.{HasRead};
ghost use Rattle.path_names.specs.NameIndex.{number_at, AreNumbered};
ghost use Rattle.path_names.specs.NameList.{names_of};

use crate::last_path::LastPath;
use crate::name_index::NameIndex;
use crate::name_list::NameList;
use crate::path_ref::PathRef;
use rc_base::NoMemory;
use std::alloc::Global;
use std::marker::Model;

/// The number of a name in its `Names`. Two are equal exactly where the names are.
#[derive(Clone, Copy, Debug, PartialEq, Eq)]
pub struct NameId(pub u32);

/// Names in the order in which they came, each once. Contracts see the list of them.
#[derive(Drop)]
pub struct Names {
    list: NameList,
    index: Option<NameIndex>,
    last: LastPath,
    alloc: Global,
}

impl Model for Names {
    ghost use Rattle.std.specs.Prelude.{List, ℕ};

    ghost Value = { List (List ℕ) };

    ghost use Rattle.path_names.specs.LastPath.{IsReadAgain};
    ghost use Rattle.path_names.specs.NameIndex.{IsIndexed};
    ghost use Rattle.path_names.specs.NameList.{names_of};

    ghost view = { λ n. names_of n.list };

    ghost invariant = { λ n. (IsIndexed (names_of n.list) n.index) × (IsReadAgain (names_of n.list) n.last) };
}

impl Names {
    /// No names.
    pub fn create(alloc: Global) -> Result<Names, NoMemory>
        ensures { IfOk result (λ names. names ≡ []) }
    {
        Ok(Names {
            list: NameList::create(alloc),
            index: None,
            last: LastPath::create(alloc),
            alloc,
        })
    }

    /// The number of this name, which is kept if it is new. Names that were known keep their numbers. NoMemory comes also
    /// where the names would have more than `u32::MAX` bytes in all.
    pub fn intern(&mut self, name: &[u8]) -> Result<NameId, NoMemory>
        requires { length self.old < 2 ^ 32 - 1 }
        ensures id { IfOk result (λ id. id ≡ id_of name.now self.old) }
        ensures kept { OnOk result (self.new ≡ interned name.now self.old) }
        ensures named { IfOk result (λ id. slice_get self.new id.0 ≡ Some name.now) }
        ensures within { IfOk result (λ id. id.0 < length self.new) }
        ensures err { OnErr result (self.new ≡ self.old) }
    {
        self.last.forget();
        if let Some(index) = &mut self.index {
            return intern_by(index, &mut self.list, name);
        }
        let mut index = NameIndex::of(&self.list, self.alloc)?;
        let id = intern_by(&mut index, &mut self.list, name)?;
        self.index = Some(index);
        Ok(id)
    }

    /// Lets go of what only `intern` needs. The next `intern` makes it anew, in the time of an `intern` of each name.
    pub fn settle(&mut self)
        ensures { self.new ≡ self.old }
    {
        self.index = None;
    }

    /// What this text names, where it is that of the path that was read last and no name was asked for since.
    pub(crate) fn last_path(&self, text: &[u8], domains: u8) -> Option<PathRef>
        ensures { IfSome result (HasRead self.now domains text.now) }
    {
        self.last.find(text, domains)
    }

    /// Keeps what a text was read to. Memory may be lacking for that, which changes no answer.
    pub(crate) fn keep_path(&mut self, text: &[u8], domains: u8, path: PathRef)
        requires { HasRead self.old domains text.now path }
        ensures { self.new ≡ self.old }
    {
        self.last.set(text, domains, path);
    }

    /// The name of this number.
    pub fn text(&self, id: NameId) -> &[u8]
        requires { id.0 < length self.now }
        ensures name { slice_get self.now id.0 ≡ Some result.now }
        ensures only { number_of result.now self.now ≡ id.0 }
    {
        self.list.get(id.0 as usize)
    }
}

// The number of this name, which is kept if it is new, by an index of the names.
fn intern_by(index: &mut NameIndex, list: &mut NameList, name: &[u8]) -> Result<NameId, NoMemory>
    requires numbered { AreNumbered (names_of list.old) (number_at index.old) }
    requires few { length (names_of list.old) < 2 ^ 32 - 1 }
    ensures id { IfOk result (λ id. id ≡ id_of name.now (names_of list.old)) }
    ensures kept { OnOk result (names_of list.new ≡ interned name.now (names_of list.old)) }
    ensures named { IfOk result (λ id. slice_get (names_of list.new) id.0 ≡ Some name.now) }
    ensures within { IfOk result (λ id. id.0 < length (names_of list.new)) }
    ensures err { OnErr result (names_of list.new ≡ names_of list.old) }
    ensures numbered { AreNumbered (names_of list.new) (number_at index.new) }
{
    list.reserve(name)?;
    let next = list.len() as u32;
    let number = index.number_or(name, next)?;
    if number == next {
        list.push(name);
    }
    Ok(NameId(number))
}
