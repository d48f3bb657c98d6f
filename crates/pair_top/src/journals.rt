//! How a kind of pair scripts is played, and reported on.
ghost use Rattle.std.specs.Prelude.{◌≡◌, ℕ, Bool, List, IfOk};
ghost use Rattle.pair_text.specs.Values.{PairScriptValue};
ghost use Rattle.pair_text.specs.declared.kind.PairKind.{PairKind as KindValue};
ghost use Rattle.pair_top.specs.Ready.{IsReady};

use cdp_masks::CdpJournals;
use l2_level::LevelJournals;
use pair_report::{cdp_report, level_report};
use pair_text::{PairKind, PairScript};
use pair_windows::{LevelJournalsRef, joint_windows};
use rc_base::NoMemory;
use std::alloc::Global;

/// The journals of a run of a pair script, of the kind that has such journals.
pub(crate) trait PairJournals: Drop {
    /// The kind.
    ghost kind: { KindValue };

    /// The journals are a run of the script.
    ghost run: { PairScriptValue → Self → Type 0 };

    /// In each window of them the group is isolated.
    ghost isolated: { PairScriptValue → Self → Type 0 };

    /// The windows that the report lists are all windows of the run with uses.
    ghost listed: { PairScriptValue → Self → Type 0 };

    /// The report, without the lines of the commands where it is to be quiet.
    ghost report_of: { PairScriptValue → Self → Bool → List ℕ };

    /// The kind.
    fn kind() -> PairKind
        ensures { result ≡ kind };

    /// Plays a script of the kind.
    fn play(alloc: Global, script: &PairScript) -> Result<Self, NoMemory>
        requires { IsReady kind script.now }
        ensures run { IfOk result (run script.now) }
        ensures isolated { IfOk result (isolated script.now) };

    /// The report of a run.
    fn report(&self, alloc: Global, script: &PairScript, quiet: bool) -> Result<Vec<u8>, NoMemory>
        requires ready { IsReady kind script.now }
        requires run { run script.now self.now }
        ensures { IfOk result (λ text. text.items ≡ report_of script.now self.now quiet) };

    /// A run has its windows listed.
    ghost lists: { (script : PairScriptValue) (j : Self) → IsReady kind script → run script j → listed script j };
}

impl PairJournals for CdpJournals {
    ghost use Rattle.cdp_masks.specs.Windows.{WindowsAreIsolated};
    ghost use Rattle.pair_report.specs.CdpReport.{cdp_report_of};
    ghost use Rattle.pair_law.specs.CdpRuns.{IsCdpRun};
    ghost use Rattle.pair_text.specs.declared.kind.PairKind.TheVariants.{Cdp};
    ghost use Rattle.pair_top.specs.Reports.{ListsCdp};
    ghost use Rattle.pair_windows.proofs.laws.UsedWindows.{AreCdpWindowsOf-listed};

    ghost kind = { Cdp };

    ghost run = { IsCdpRun };

    ghost isolated = { WindowsAreIsolated };

    ghost listed = { ListsCdp };

    ghost report_of = { cdp_report_of };

    ghost lists = { λ script j ready run. AreCdpWindowsOf-listed script j ready.lawful ready.has_kind run };

    fn kind() -> PairKind {
        PairKind::Cdp
    }

    fn play(alloc: Global, script: &PairScript) -> Result<Self, NoMemory> {
        cdp_masks::play(alloc, script)
    }

    fn report(&self, alloc: Global, script: &PairScript, quiet: bool) -> Result<Vec<u8>, NoMemory> {
        cdp_report(alloc, script, self.replies(), self.slices(), quiet)
    }
}

impl PairJournals for LevelJournals {
    ghost use Rattle.l2_level.specs.Windows.{WindowsAreIsolated};
    ghost use Rattle.pair_report.specs.LevelReport.{level_report_of};
    ghost use Rattle.pair_law.specs.LevelRuns.{IsLevelRun};
    ghost use Rattle.pair_text.specs.declared.kind.PairKind.TheVariants.{Levels};
    ghost use Rattle.pair_top.specs.Reports.{ListsLevels};
    ghost use Rattle.pair_windows.proofs.laws.JointUsedWindows.{AreJointWindowsOf-listed};

    ghost kind = { Levels };

    ghost run = { IsLevelRun };

    ghost isolated = { WindowsAreIsolated };

    ghost listed = { ListsLevels };

    ghost report_of = { level_report_of };

    ghost lists = { λ script j ready run. AreJointWindowsOf-listed script j ready.lawful ready.has_kind run };

    fn kind() -> PairKind {
        PairKind::Levels
    }

    fn play(alloc: Global, script: &PairScript) -> Result<Self, NoMemory> {
        l2_level::play(alloc, script)
    }

    fn report(&self, alloc: Global, script: &PairScript, quiet: bool) -> Result<Vec<u8>, NoMemory> {
        let replies = self.replies();
        let l2 = self.l2_histories();
        let l3 = self.l3_histories();
        let journals = LevelJournalsRef { replies, l2, l3 };
        let windows = joint_windows(alloc, script, &journals)?;
        level_report(alloc, script, &journals, &windows, quiet)
    }
}
