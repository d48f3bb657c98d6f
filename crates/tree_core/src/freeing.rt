//! RMIDs that are freed, and those in limbo.
ghost use Rattle.std.specs.Prelude.{◌≡◌, ◌≢◌, ◌*◌, ◌-◌, ◌^◌, ◌<◌, ◌≤◌, IsTrue, length};
ghost use Rattle.hw_ids.specs.Ids.{contains};
ghost use Rattle.hw_ids.specs.MonitoringIds.{after_free};
ghost use Rattle.machine.specs.Maps.{parameters_of};
ghost use Rattle.tree_core.specs.RmidLists.{Frees, MayFree, bytes_each, bytes_of};

use crate::looks::greatest;
use arrayvec::ArrayVec;
use hw_ids::Rmids;
use machine::Machine;

// The bytes of the lines of an RMID in the fullest cache.
fn bytes_of(looks: &[u64]) -> u64
    ensures { result ≡ bytes_of looks.now }
{
    greatest(looks).saturating_mul(64)
}

// Frees one RMID, with its count in each domain.
fn free(rmids: &mut Rmids, rmid: u16, looks: &[u64])
    requires taken { IsTrue (contains rmid rmids.old.taken) }
    requires not_default { rmid ≢ 0 }
    ensures { rmids.new ≡ after_free rmids.old rmid (bytes_of looks.now) }
{
    rmids.free(rmid, bytes_of(looks));
}

/// Frees these RMIDs, in order, with their counts in each domain.
pub(crate) fn free_all(m: &Machine, rmids: &mut Rmids, freed: &[u16], looks: &[u64])
    requires may { MayFree rmids.old.taken freed.now }
    requires looks { length looks.now ≡ length freed.now * m.now.domains }
    requires threshold { rmids.old.threshold < 2 ^ 64 - 1 }
    ensures { Frees (parameters_of m.now) freed.now looks.now rmids.old rmids.new }
{
    let mut rest = looks;
    for rmid in freed {
        let (own, more) = rest.split_at(m.domains as usize);
        free(rmids, *rmid, own);
        rest = more;
    }
}

/// The bytes in the fullest cache of each of so many RMIDs, with the counts of each in so many domains.
pub(crate) fn bytes_each(looks: &[u64], domains: u8, count: u16) -> ArrayVec<u64, 256>
    requires few { count ≤ 256 }
    requires looks { length looks.now ≡ count * domains }
    ensures { result.items ≡ bytes_each domains count looks.now }
{
    let mut bytes = ArrayVec::new();
    let mut rest = looks;
    for _n in 0..count {
        let (own, more) = rest.split_at(domains as usize);
        bytes.push(bytes_of(own));
        rest = more;
    }
    bytes
}
