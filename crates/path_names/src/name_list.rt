//! Names one after the other in one text.
ghost use Rattle.std.specs.Prelude.{◌≡◌, ◌<◌, ◌≤◌, ◌++◌, ◌∷◌, [], length, Some, OnOk, slice_index_or, vec_len};
ghost use Rattle.std.specs.List.{slice_get};
ghost use Rattle.path_names.specs.NameTexts.{EndsRise, EndsRise-prop, start_of};

use rc_base::NoMemory;
use std::alloc::Global;

/// How many bytes the names of a list have at most in all: where each ends is kept in 32 bits.
pub(crate) const MOST_LIST_BYTES: usize = u32::MAX as usize;

/// Names in the order in which they came: their bytes without gaps, and where each ends.
#[derive(Drop)]
pub(crate) struct NameList {
    bytes: Vec<u8>,
    ends: Vec<u32>,
    ghost rising: { EndsRise 0 ends.items (length bytes.items) } by { EndsRise-prop 0 ends.items (length bytes.items) },
}

impl NameList {
    ghost use Rattle.path_names.specs.NameList.{names_of, HasRoom};

    /// No names.
    pub(crate) fn create(alloc: Global) -> NameList
        ensures { names_of result ≡ [] }
    {
        NameList {
            bytes: Vec::new(alloc),
            ends: Vec::new(alloc),
        }
    }

    /// How many names there are.
    pub(crate) fn len(&self) -> usize
        ensures { result ≡ length (names_of self.now) }
    {
        self.ends.len()
    }

    /// Makes room for this name. An error leaves the names as they were; it comes also where they would have more than
    /// `MOST_LIST_BYTES` bytes in all.
    pub(crate) fn reserve(&mut self, name: &[u8]) -> Result<(), NoMemory>
        ensures room { OnOk result (HasRoom self.new name.now) }
        ensures same { names_of self.new ≡ names_of self.old }
    {
        if self.bytes.len() + name.len() > MOST_LIST_BYTES {
            return Err(NoMemory);
        }
        self.bytes.reserve(name.len())?;
        self.ends.reserve(1)?;
        Ok(())
    }

    /// Adds a name for which there is room.
    pub(crate) fn push(&mut self, name: &[u8])
        requires { HasRoom self.old name.now }
        ensures { names_of self.new ≡ names_of self.old ++ name.now ∷ [] }
    {
        let _ = self.bytes.extend_from_slice(name);
        let _ = self.ends.push(self.bytes.len() as u32);
    }

    // Where the name at this place begins.
    #[tactic(auto, using(crate::proofs::NameTexts::starts))]
    fn start(&self, place: usize) -> usize
        requires { place < vec_len self.now.ends }
        ensures { result ≡ start_of 0 self.now.ends.items place }
    {
        if place == 0 {
            0
        } else {
            self.ends[place - 1] as usize
        }
    }

    // Where the name at this place begins and ends.
    fn bounds(&self, place: usize) -> (usize, usize)
        requires { place < vec_len self.now.ends }
        ensures start { result.0 ≡ start_of 0 self.now.ends.items place }
        ensures end { result.1 ≡ slice_index_or self.now.ends.items place 0 }
        ensures rising { result.0 ≤ result.1 }
        ensures within { result.1 ≤ vec_len self.now.bytes }
    {
        (self.start(place), self.ends[place] as usize)
    }

    /// The name at this place.
    pub(crate) fn get(&self, place: usize) -> &[u8]
        requires { place < length (names_of self.now) }
        ensures { slice_get (names_of self.now) place ≡ Some result.now }
    {
        let (start, end) = self.bounds(place);
        &self.bytes[start..end]
    }
}
