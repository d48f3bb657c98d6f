//! The law, proved with an empty body.

ghost use Rattle.check_parts.specs.Law.{RunsAreWritable};

/// The journals of a run of a lawful script have a text: each number is in the range of its field.
pub fn runs_are_writable()
    ensures { RunsAreWritable }
{}
