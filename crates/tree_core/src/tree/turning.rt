//! Turning a control group to another mode.
ghost use Rattle.std.specs.Prelude.{◌≡◌, ◌≢◌, ◌*◌, None, Some, [], false, find, length, map, true};
ghost use Rattle.std.specs.List.{range_with_len};
ghost use Rattle.group_tree.specs.Records.{has_gid, is_control};
ghost use Rattle.rc_base.specs.declared.names.Mode.TheVariants as modes;
ghost use Rattle.tree_core.specs.Changes.{MakesUnless};
ghost use Rattle.tree_core.specs.CpuFiles.{unless};
ghost use Rattle.tree_core.specs.Modes.{turned};
ghost use Rattle.tree_law.specs.Freeing.{limbo_after, rmids_of};
ghost use Rattle.tree_law.specs.Places.{with_record};
ghost use Rattle.tree_law.specs.Refusals.{reply_of};
ghost use Rattle.tree_law.specs.Sound.{IsSound};
ghost use Rattle.tree_law.specs.Space.{free_rmid};
ghost use Rattle.tree_law.specs.commands.Mode.{against_rmid, freed_by, is_setup, rmid_refusal};
ghost use Rattle.tree_law.specs.declared.follow.Follow.TheVariants.{Raise};

use super::Tree;
use crate::follow::{After, raise_all};
use crate::freeing::free_all;
use crate::rmid_list::only;
use crate::taking::take_rmid;
use group_tree::Group;
use rc_base::{Mode, Reply};

impl Tree {
    /// Turns a group to another mode, which leaves a sound tree, and raises every domain. It is refused only where a group leaves
    /// pseudo-locksetup and no RMID is free.
    pub(crate) fn turn(
        &mut self,
        group: &Group,
        mode: Mode,
        looks: &[u64],
        follows: &mut After,
    ) -> Reply
        requires there { find (has_gid group.now.gid) self.old.state.groups ≡ Some group.now }
        requires control { is_control group.now.kind ≡ true }
        requires not_default { is_setup mode ≡ true → group.now.gid.0 ≢ 0 }
        requires apart { is_setup mode ≡ true → is_setup group.now.mode ≡ false }
        requires looks { against_rmid self.old.machine self.old.state group.now ≡ None
            → length looks.now ≡ length (freed_by group.now (Some mode)) * self.old.machine.domains }
        requires sound { against_rmid self.old.machine self.old.state group.now ≡ None
            → IsSound self.old.machine (turned self.old.machine self.old.state group.now mode looks.now) }
        requires nothing { follows.old.items ≡ [] }
        ensures { MakesUnless self.old (against_rmid self.old.machine self.old.state group.now)
            (turned self.old.machine self.old.state group.now mode looks.now)
            (map (λ d. Raise d) (range_with_len 0 self.old.machine.domains)) self.new result follows.new.items }
    {
        if mode == Mode::LockSetup {
            self.enter_setup(group, looks, follows);
            Reply::Ok
        } else if group.mode == Mode::LockSetup {
            self.leave_setup(group, mode, follows)
        } else {
            self.set_mode(group, mode, follows);
            Reply::Ok
        }
    }

    // A group other than the default group enters pseudo-locksetup. Its RMID, where it has one, is freed.
    fn enter_setup(&mut self, group: &Group, looks: &[u64], follows: &mut After)
        requires there { find (has_gid group.now.gid) self.old.state.groups ≡ Some group.now }
        requires not_default { group.now.gid.0 ≢ 0 }
        requires looks { length looks.now ≡ length (rmids_of group.now) * self.old.machine.domains }
        requires sound { IsSound self.old.machine
            (record (with_record self.old.state (record group.now { mode = modes.LockSetup; rmid = None })) {
              limbo
                  = limbo_after self.old.machine self.old.state.threshold self.old.state.limbo (rmids_of group.now) looks.now;
            }) }
        requires nothing { follows.old.items ≡ [] }
        ensures tree { self.new ≡ record self.old {
          state
              = record (with_record self.old.state (record group.now { mode = modes.LockSetup; rmid = None })) {
                limbo
                    = limbo_after self.old.machine self.old.state.threshold self.old.state.limbo (rmids_of group.now) looks.now;
              };
        } }
        ensures after { follows.new.items ≡ map (λ d. Raise d) (range_with_len 0 self.old.machine.domains) }
    {
        raise_all(follows, self.machine.domains);
        let freed = only(group.rmid);
        free_all(&self.machine, &mut self.rmids, freed.as_slice(), looks);
        self.groups.replace(Group {
            mode: Mode::LockSetup,
            rmid: None,
            ..*group
        });
    }

    // A group leaves pseudo-locksetup, where some RMID is free.
    fn leave_setup(&mut self, group: &Group, mode: Mode, follows: &mut After) -> Reply
        requires there { find (has_gid group.now.gid) self.old.state.groups ≡ Some group.now }
        requires control { is_control group.now.kind ≡ true }
        requires setup { group.now.mode ≡ modes.LockSetup }
        requires sound { rmid_refusal self.old.machine self.old.state ≡ None → IsSound self.old.machine (with_record self.old.state
            (record group.now { mode = mode; rmid = free_rmid self.old.machine self.old.state })) }
        requires nothing { follows.old.items ≡ [] }
        ensures { MakesUnless self.old (rmid_refusal self.old.machine self.old.state)
            (with_record self.old.state
            (record group.now { mode = mode; rmid = free_rmid self.old.machine self.old.state }))
            (map (λ d. Raise d) (range_with_len 0 self.old.machine.domains)) self.new result follows.new.items }
    {
        match take_rmid(&mut self.rmids) {
            Ok(rmid) => {
                self.groups.replace(Group {
                    mode,
                    rmid: Some(rmid),
                    ..*group
                });
                raise_all(follows, self.machine.domains);
                Reply::Ok
            }
            Err(reply) => reply,
        }
    }

    // A group gets another mode, and keeps its RMID.
    fn set_mode(&mut self, group: &Group, mode: Mode, follows: &mut After)
        requires there { find (has_gid group.now.gid) self.old.state.groups ≡ Some group.now }
        requires sound { IsSound self.old.machine (with_record self.old.state (record group.now { mode = mode })) }
        requires nothing { follows.old.items ≡ [] }
        ensures tree { self.new ≡ record self.old { state = with_record self.old.state (record group.now { mode = mode }) } }
        ensures after { follows.new.items ≡ map (λ d. Raise d) (range_with_len 0 self.old.machine.domains) }
    {
        self.put(*group, mode, group.masks);
        raise_all(follows, self.machine.domains);
    }
}
