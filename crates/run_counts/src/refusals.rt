//! Refused commands.
ghost use Rattle.std.specs.Prelude.{◌≡◌, count_by, map};
ghost use Rattle.run_counts.specs.Refusals.{is_refusal};
ghost use Rattle.run_law.specs.Entries.{entry_value};
ghost use Rattle.run_law.specs.TreeHistory.{TreeEntryValue};

use rc_base::Reply;
use run_law::TreeEntry;

/// Whether a command was refused.
pub(crate) fn is_refused(entry: &TreeEntry) -> bool
    ensures { result ≡ is_refusal entry.now.reply }
{
    match entry.reply {
        Reply::Ok => false,
        Reply::Refused { .. } => true,
    }
}

/// How many commands were refused.
pub fn count_refused(tree: &[TreeEntry]) -> u64
    ensures { result ≡ count_by (λ (h : TreeEntryValue). is_refusal h.reply) (map entry_value tree.now) }
{
    tree.iter().filter(|e| is_refused(e)).count() as u64
}
