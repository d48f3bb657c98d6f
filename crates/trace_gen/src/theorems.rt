//! Laws of traces.
ghost use Rattle.std.specs.Prelude.{◌≡◌};
ghost use Rattle.trace_gen.specs.declared.making.TheConstants.{MOST_THREAD_ACCESSES};
ghost use Rattle.trace_gen.specs.TraceLaws.{TracesAreScripts, TracesSay};

/// Each trace is a script, and no longer than a script may be.
#[tactic(auto, using(crate::proofs::Scripts::traces_are_scripts))]
pub fn traces_are_scripts()
    ensures { TracesAreScripts }
{}

/// A trace says the stated script: a phase of nine commands, and one of four threads of as many accesses each as its number.
#[tactic(auto, using(crate::proofs::Scripts::traces_say))]
pub fn traces_say_what_is_stated()
    ensures { TracesSay }
{}

/// The most accesses of a thread are this number (this project's profile). Every other clause cites it by its name.
pub fn limits_are_stated()
    ensures { MOST_THREAD_ACCESSES ≡ 200_000 }
{}
