//! The ways of a new group.
ghost use Rattle.std.specs.Prelude.{◌≡◌, ◌<◌, None, Some, IfOk, IfErr, OnOk};
ghost use Rattle.tree_law.specs.Space.{full_domain, initial_mask};
ghost use Rattle.tree_law.specs.commands.Mkdir.{initial_masks};

use super::Tree;
use mode_rules::initial_mask;

impl Tree {
    // A new group's mask in a domain, where there is space.
    fn initial_mask(&self, domain: u8) -> Option<u32>
        requires { domain < self.now.machine.domains }
        ensures { result ≡ initial_mask self.now.machine self.now.state domain }
    {
        let used = self.used(None, domain);
        initial_mask(&used, &self.machine.geometry())
    }

    /// A new group's mask in each domain, and 0 where there is no such domain; an error is the least domain without space for it.
    pub(crate) fn new_masks(&self) -> Result<[u32; 8], u8>
        ensures space { OnOk result (full_domain self.now.machine self.now.state ≡ None) }
        ensures masks { IfOk result (λ masks. masks ≡ initial_masks self.now.machine self.now.state) }
        ensures full { IfErr result (λ domain. full_domain self.now.machine self.now.state ≡ Some domain) }
    {
        let mut masks = [0; 8];
        for domain in 0..self.machine.domains {
            let Some(mask) = self.initial_mask(domain) else {
                return Err(domain);
            };
            masks[domain as usize] = mask;
        }
        Ok(masks)
    }
}
