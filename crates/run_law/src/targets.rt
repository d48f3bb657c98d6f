//! The slices in which a follow-up is entered, one after the other.
ghost use Rattle.std.specs.Prelude.{◌≡◌, ◌<◌};
ghost use Rattle.machine.specs.Maps.{parameters_of};
ghost use Rattle.machine.specs.Slices.{slice_count};
ghost use Rattle.run_law.specs.Targets.{slice_for, slices_for};
ghost use Rattle.tree_law.specs.Steps.{follow_domain};

use machine::Machine;
use tree_law::Follow;

/// How many slices a follow-up is entered in.
pub fn slices_for(m: &Machine, follow: Follow) -> u8
    ensures { result ≡ slices_for (parameters_of m.now) follow }
{
    match follow {
        Follow::Touch { .. } | Follow::Drop { .. } => 1,
        _ => m.slices,
    }
}

/// The number of the x-th of these over all domains.
pub fn slice_for(m: &Machine, follow: Follow, x: u8) -> usize
    requires domain { follow_domain follow < m.now.domains }
    requires slice { x < m.now.slices }
    ensures number { result ≡ slice_for (parameters_of m.now) follow x }
    ensures within { result < slice_count (parameters_of m.now) }
{
    match follow {
        Follow::Raise { domain } | Follow::Flush { domain } | Follow::Lock { domain, .. } => {
            m.slice_number(domain, x)
        }
        Follow::Touch { tag, line } => m.line_slice(tag.domain, line),
        Follow::Drop { domain, line } => m.line_slice(domain, line),
    }
}
