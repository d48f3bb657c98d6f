//! The path that was read last.
ghost use Rattle.std.specs.Prelude.{◌≡◌, None, IfSome};
ghost use Rattle.path_names.specs.LastPath.{IsOf};

use crate::path_ref::PathRef;
use std::alloc::Global;

/// The text of the path that was read last, on a machine with so many domains, and what it names; None before the first, and
/// where memory for the text ran out.
#[derive(Drop)]
pub(crate) struct LastPath {
    text: Vec<u8>,
    domains: u8,
    path: Option<PathRef>,
}

impl LastPath {
    /// No path was read.
    pub(crate) fn create(alloc: Global) -> LastPath
        ensures { result.path ≡ None }
    {
        LastPath {
            text: Vec::new(alloc),
            domains: 0,
            path: None,
        }
    }

    /// What this text names, where it was read last.
    pub(crate) fn find(&self, text: &[u8], domains: u8) -> Option<PathRef>
        ensures { IfSome result (λ path. IsOf text.now domains path self.now) }
    {
        if self.domains == domains && self.text.as_slice() == text {
            self.path
        } else {
            None
        }
    }

    /// This text was read last, and names this path.
    pub(crate) fn set(&mut self, text: &[u8], domains: u8, path: PathRef)
        ensures { IfSome self.new.path (λ kept. IsOf text.now domains path self.new) }
    {
        self.path = None;
        self.text.clear();
        if self.text.extend_from_slice(text).is_ok() {
            self.domains = domains;
            self.path = Some(path);
        }
    }

    /// No path is known to be named by what was read last.
    pub(crate) fn forget(&mut self)
        ensures { self.new.path ≡ None }
    {
        self.path = None;
    }
}
