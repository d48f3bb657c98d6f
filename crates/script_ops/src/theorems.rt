//! The limits of scripts by their numbers.
ghost use Rattle.std.specs.Prelude.{◌≡◌};
ghost use Rattle.script_ops.specs.declared.limits.TheConstants.{MOST_ORDER, MOST_PATH_BYTES, MOST_PHASES, MOST_PHASE_THREADS, MOST_SCRIPT_BYTES, MOST_TASKS, MOST_TEXT_BYTES, MOST_THREADS, MOST_WEIGHT};

/// The limits are these numbers (this project's profile). Every other clause cites a limit by its name.
pub fn limits_are_stated()
    ensures weight { MOST_WEIGHT ≡ 4_000_000 }
    ensures tasks { MOST_TASKS ≡ 4_096 }
    ensures path { MOST_PATH_BYTES ≡ 2_048 }
    ensures text { MOST_TEXT_BYTES ≡ 4_096 }
    ensures order { MOST_ORDER ≡ 4_000_000 }
    ensures script { MOST_SCRIPT_BYTES ≡ 67_108_864 }
    ensures phases { MOST_PHASES ≡ 64 }
    ensures phase_threads { MOST_PHASE_THREADS ≡ 16 }
    ensures threads { MOST_THREADS ≡ 1_024 }
{}
