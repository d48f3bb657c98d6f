//! What holds of every run.
ghost use Rattle.check_top.specs.Performances.{RunsIsolate, RunsReadBack};

use check_parts::written_runs::runs_are_writable;
use run_windows::theorems::{regions_hold, windows_are_isolated, windows_are_one};

/// Every run of a lawful script isolates groups and holds regions, whoever made its journals.
pub fn runs_isolate()
    ensures { RunsIsolate }
{
    windows_are_isolated();
    windows_are_one();
    regions_hold();
}

/// The text of every run of a lawful script reads back as its journals, whoever made them.
pub fn runs_read_back()
    ensures { RunsReadBack }
{
    runs_are_writable();
}
