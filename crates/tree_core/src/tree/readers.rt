//! What can be read of the tree's tables.
ghost use Rattle.std.specs.Prelude.{◌≡◌, ◌<◌, ◌≤◌, IfSome, length};
ghost use Rattle.machine.specs.Maps.{parameters_of};
ghost use Rattle.script_ops.specs.declared.limits.TheConstants.{MOST_TASKS};
ghost use Rattle.tree_law.specs.Space.{region_in};

use super::Tree;
use cpu_binding::Cpus;
use group_tree::Groups;
use hw_ids::Rmids;
use machine::Machine;
use pseudo_lock::Region;
use rc_base::Reply;
use task_binding::Tasks;

impl Tree {
    /// The machine.
    pub fn machine(&self) -> &Machine
        ensures { parameters_of result.now ≡ self.now.machine }
    {
        &self.machine
    }

    /// How many commands the tree has taken.
    pub fn epoch(&self) -> u64
        ensures { result ≡ self.now.epoch }
    {
        self.epoch
    }

    /// The groups.
    pub fn groups(&self) -> &Groups
        ensures groups { result.now.groups ≡ self.now.state.groups }
        ensures shareable { result.now.shareable ≡ self.now.machine.shareable }
    {
        &self.groups
    }

    /// The declared tasks with their groups, at most `MOST_TASKS`.
    pub fn tasks(&self) -> &Tasks
        ensures tasks { result.now ≡ self.now.state.tasks }
        ensures few { length result.now ≤ MOST_TASKS }
    {
        &self.tasks
    }

    /// The CPUs with their groups.
    pub fn cpus(&self) -> &Cpus
        ensures { result.now ≡ self.now.state.cpus }
    {
        &self.cpus
    }

    /// The RMIDs: those in limbo, and the threshold in bytes.
    pub fn rmids(&self) -> &Rmids
        ensures count { result.now.count ≡ self.now.machine.rmids }
        ensures limbo { result.now.limbo ≡ self.now.state.limbo }
        ensures threshold { result.now.threshold ≡ self.now.state.threshold }
    {
        &self.rmids
    }

    /// The region of a domain, and None where it has none (kernel documentation, "Cache Pseudo-Locking").
    pub fn region(&self, domain: u8) -> Option<Region>
        requires { domain < self.now.machine.domains }
        ensures region { result ≡ region_in self.now.state.regions domain }
        ensures own { IfSome result (λ r. r.domain ≡ domain) }
    {
        self.regions.of(domain)
    }

    /// What the last `mkdir` or write was answered, and `ok` before the first.
    pub fn status(&self) -> Reply
        ensures { result ≡ self.now.state.status }
    {
        self.status
    }

    /// The serial number of the next group that is made.
    pub fn next_gid(&self) -> u32
        ensures { result ≡ self.now.state.next_gid }
    {
        self.next_gid
    }
}
