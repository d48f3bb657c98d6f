//! What the resource monitoring ids are used for.
ghost use Rattle.std.specs.Prelude.{◌≡◌, ◌<◌, ◌≤◌, length, slice_index, position, take};
ghost use Rattle.hw_ids.specs.Ids.{places};
ghost use Rattle.hw_ids.specs.MonitoringIds.{above};
ghost use Rattle.hw_ids.specs.Uses.{is_free, is_limbo, is_taken, use_after};

/// What an RMID is used for.
#[derive(Clone, Copy, Debug)]
pub enum Use {
    Free,
    Taken,
    Limbo,
}

impl Use {
    /// Whether it is free.
    pub fn is_free(self) -> bool
        ensures { result ≡ is_free self }
    {
        matches!(self, Use::Free)
    }

    /// Whether it is in limbo.
    pub fn is_limbo(self) -> bool
        ensures { result ≡ is_limbo self }
    {
        matches!(self, Use::Limbo)
    }
}

/// The first RMID that is free.
pub fn lowest_free(uses: &[Use]) -> Option<usize>
    ensures { result ≡ position is_free uses.now }
{
    uses.iter().position(|u| u.is_free())
}

/// How many RMIDs are in limbo.
pub fn in_limbo(uses: &[Use]) -> usize
    ensures number { result ≡ length (places is_limbo 0 uses.now) }
    ensures within { result ≤ length uses.now }
{
    uses.iter().filter(|u| u.is_limbo()).count()
}

/// The i-th RMID in limbo.
pub fn nth_in_limbo(uses: &[Use], i: u16) -> u16
    requires some { i < length (places is_limbo 0 uses.now) }
    requires fits { length uses.now ≤ 256 }
    ensures { result ≡ slice_index (places is_limbo 0 uses.now) i }
{
    let mut left = i;
    for (rmid, u) in uses.iter().enumerate() {
        if u.is_limbo() {
            if left == 0 {
                return rmid as u16;
            }
            left -= 1;
        }
    }
    unreachable!()
}

/// What becomes of an RMID whose lines hold so many bytes.
pub fn use_after(threshold: u64, bytes: u64) -> Use
    ensures { result ≡ use_after threshold bytes }
{
    if bytes <= threshold {
        Use::Free
    } else {
        Use::Limbo
    }
}

/// Frees those of the first `count` RMIDs in limbo whose bytes are at most the threshold.
pub fn release(uses: &mut [Use; 256], count: usize, threshold: u64, bytes: &[u64])
    requires within { count ≤ 256 }
    requires each { length bytes.now ≡ length (places is_limbo 0 (take count uses.old)) }
    ensures limbo { places is_limbo 0 (take count uses.new) ≡ above threshold (places is_limbo 0 (take count uses.old)) bytes.now }
    ensures taken { places is_taken 0 (take count uses.new) ≡ places is_taken 0 (take count uses.old) }
    ensures whole { length uses.new ≡ length uses.old }
{
    let mut next = 0;
    for rmid in 0..count {
        if uses[rmid].is_limbo() {
            uses[rmid] = use_after(threshold, bytes[next]);
            next += 1;
        }
    }
}
