//! touch: one access to a line of a region.
ghost use Rattle.std.specs.Prelude.{◌≡◌, ◌==◌, ◌<◌, ◌^◌, ℕ, Contains, IfSome, List, []};
ghost use Rattle.std.specs.Option.{option_map};
ghost use Rattle.machine.specs.Maps.{domain_of};
ghost use Rattle.pseudo_lock.specs.declared.region.Region.{Region};
ghost use Rattle.script_ops.specs.declared.op.Op.TheVariants.{Touch};
ghost use Rattle.tree_core.specs.Changes.{Takes};
ghost use Rattle.tree_core.specs.Touched.{region_at};
ghost use Rattle.tree_law.specs.State.{tasks_of};
ghost use Rattle.tree_law.specs.commands.Touch.{region_if_locked, region_of, touched};

use super::Tree;
use crate::follow::{After, Follow, push_only};
use group_tree::{Group, GroupKind};
use path_names::{DirRef, PathRef};
use pseudo_lock::{Region, line_at};
use rc_base::{Gid, Mode, Reply, Why};

impl Tree {
    /// Touches the line at an offset in bytes of the region of a pseudo-locked group, by a declared task on a CPU of the region's
    /// domain: an access follows, with the tag of the state after this command, which is counted already (kernel documentation,
    /// "Cache Pseudo-Locking"; offsets are this project's profile).
    pub(crate) fn touch(
        &self,
        path: PathRef,
        offset: u64,
        task: u32,
        cpu: u8,
        follows: &mut After,
    ) -> Reply
        requires task { Contains (tasks_of self.now.state) task }
        requires cpu { cpu < self.now.machine.cpus }
        requires nothing { follows.old.items ≡ [] }
        ensures { (looks : List ℕ) → Takes self.now (Touch cpu path task offset) looks self.now result follows.new.items }
    {
        let Some(region) = self.touched(path) else {
            return Reply::refused(Why::NoSuchPath, 0);
        };
        let Some(line) = line_at(&region, &self.machine, offset) else {
            return Reply::refused(Why::PastRegion, 0);
        };
        if !self.is_at(cpu, region.domain) {
            return Reply::refused(Why::WrongCpu, 0);
        }
        let tag = self.resolve(task, cpu);
        push_only(follows, Follow::Touch { tag, line });
        Reply::Ok
    }

    // Whether a CPU is of a domain.
    fn is_at(&self, cpu: u8, domain: u8) -> bool
        requires { cpu < self.now.machine.cpus }
        ensures { result ≡ (domain_of self.now.machine cpu == domain) }
    {
        self.machine.domain_of(cpu) == domain
    }

    /// The region of the pseudo-locked group whose directory this is, and None where the path has no such group.
    #[tactic(auto, unfolding(tree_law::specs::commands::Touch::touched))]
    pub(super) fn touched(&self, path: PathRef) -> Option<Region>
        ensures region { option_map (λ (r : Region). (r.domain, r)) result ≡ touched self.now.state path }
        ensures low { IfSome result (λ r. r.first_line < 2 ^ 60) }
    {
        match path {
            PathRef::Dir(DirRef::Ctrl(name)) => match self.group_at(DirRef::Ctrl(name)) {
                Some(group) => self.region_if_locked(&group),
                None => None,
            },
            _ => None,
        }
    }

    // The region of a group, where it is a pseudo-locked control group.
    fn region_if_locked(&self, group: &Group) -> Option<Region>
        ensures region { option_map (λ (r : Region). (r.domain, r)) result ≡ region_if_locked self.now.state group.now }
        ensures low { IfSome result (λ r. r.first_line < 2 ^ 60) }
    {
        match (group.kind, group.mode) {
            (GroupKind::Control, Mode::Locked) => self.region_of(group.gid),
            _ => None,
        }
    }

    // The region of a group.
    fn region_of(&self, gid: Gid) -> Option<Region>
        ensures region { option_map (λ (r : Region). (r.domain, r)) result ≡ region_of self.now.state gid }
        ensures low { IfSome result (λ r. r.first_line < 2 ^ 60) }
    {
        for domain in 0..self.machine.domains {
            let region = self.region_if_of(domain, gid);
            if region.is_some() {
                return region;
            }
        }
        None
    }

    // The region of a domain, where it is a group's.
    fn region_if_of(&self, domain: u8, gid: Gid) -> Option<Region>
        requires { domain < self.now.machine.domains }
        ensures region { result ≡ region_at self.now.state gid domain }
        ensures own { IfSome result (λ r. r.domain ≡ domain) }
        ensures low { IfSome result (λ r. r.first_line < 2 ^ 60) }
    {
        match self.regions.of(domain) {
            Some(region) if region.gid.0 == gid.0 => Some(region),
            _ => None,
        }
    }
}
