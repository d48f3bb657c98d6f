//! The groups that are exclusive in one domain at an epoch, found among those of all changes.
ghost use Rattle.std.specs.Prelude.{◌≡◌, ◌+◌, ◌-◌, ◌*◌, ◌<◌, ◌≤◌, [], IfOk, length};
ghost use Rattle.std.specs.List.{AllWithin};
ghost use Rattle.run_law.specs.Runs.{IsRun};
ghost use Rattle.run_windows.specs.Changes.{AreChanges};
ghost use Rattle.run_windows.specs.Edits.{changes_of};
ghost use Rattle.run_windows.specs.Stays.{AreStays};
ghost use Rattle.run_windows.specs.Sweeps.{AreMarks, IsSwept, swept};
ghost use Rattle.run_windows.specs.Timelines.{IsTimeline};
ghost use Rattle.run_windows.specs.declared.changes.Past.{Past};
ghost use Rattle.run_windows.specs.declared.timeline.TheConstants.{STEP};
ghost use Rattle.script_ops.specs.Values.{IsLawful};

use crate::changes::Past;
use crate::sweep::{Sweep, same_sweep, sweep_over};
use private_lru::ExclusiveSpan;
use rc_base::NoMemory;
use run_replay::Run;
use std::alloc::Global;

/// After how many changes a sweep is kept: as many as there are ways at most, so that no domain has more exclusive groups.
pub(crate) const STEP: usize = 32;

/// The changes of the exclusive groups of a run, with what helps to find those of a domain.
#[derive(Drop)]
pub(crate) struct Timeline<'a> {
    /// The run.
    pub run: Run<'a>,
    /// What the changes undo, the first change first.
    pub pasts: &'a [Past],
    /// Where a sweep over them stands in the domain, after the last change and after each so many more.
    pub marks: Vec<Sweep>,
}

// Where a sweep over the changes of a run stands in a domain, after the last change and after each so many more.
fn marks(alloc: Global, run: &Run<'_>, domain: u8, pasts: &[Past]) -> Result<Vec<Sweep>, NoMemory>
    requires { domain < 8 }
    ensures { IfOk result (λ marks. AreMarks domain (length run.now.journals.now.tree) STEP pasts.now marks.items) }
{
    let mut marks: Vec<Sweep> = Vec::new(alloc);
    let mut sweep = Sweep {
        stays: Vec::new(alloc),
        last: run.journals.tree().len() as u64,
    };
    for back in 0..pasts.len() {
        sweep_over(alloc, &mut sweep, &pasts[pasts.len() - 1 - back], domain)?;
        if back / STEP == marks.len() {
            marks.push(same_sweep(alloc, &sweep)?)?;
        }
    }
    Ok(marks)
}

/// The changes of a run, to be asked for those of a domain.
pub(crate) fn timeline_of<'a>(
    alloc: Global,
    run: &Run<'a>,
    domain: u8,
    pasts: &'a [Past],
) -> Result<Timeline<'a>, NoMemory>
    requires lawful { IsLawful run.now.script.now }
    requires run { IsRun run.now.script.now run.now.journals.now }
    requires domain { domain < run.now.script.now.machine.domains }
    requires changes { AreChanges run.now.script.now run.now.journals.now (length run.now.journals.now.tree + 1) (changes_of [] pasts.now) }
    ensures timeline { IfOk result (IsTimeline domain) }
    ensures run { IfOk result (λ t. t.run ≡ run.now) }
{
    let marks = marks(alloc, run, domain, pasts)?;
    Ok(Timeline {
        run: *run,
        pasts,
        marks,
    })
}

// Where a sweep has come that has gone over so many changes.
fn sweep_at(
    alloc: Global,
    timeline: &Timeline<'_>,
    domain: u8,
    count: usize,
) -> Result<Sweep, NoMemory>
    requires domain { domain < 8 }
    requires within { count ≤ length timeline.now.pasts.now }
    requires some { 0 < count }
    requires marks { AreMarks domain (length timeline.now.run.journals.now.tree) STEP timeline.now.pasts.now timeline.now.marks.items }
    ensures { IfOk result (λ sweep. IsSwept (swept domain (length timeline.now.run.journals.now.tree) timeline.now.pasts.now count) sweep) }
{
    let pasts = timeline.pasts;
    let mark = (count - 1) / STEP;
    let mut sweep = same_sweep(alloc, &timeline.marks[mark])?;
    for back in STEP * mark + 1..count {
        sweep_over(alloc, &mut sweep, &pasts[pasts.len() - 1 - back], domain)?;
    }
    Ok(sweep)
}

// How many of the changes of a run begin at an epoch or before it.
fn count_begun(run: &Run<'_>, pasts: &[Past], epoch: u64) -> usize
    requires changes { AreChanges run.now.script.now run.now.journals.now (length run.now.journals.now.tree + 1) (changes_of [] pasts.now) }
    ensures begun { AllWithin (λ (p : Past). p.from ≤ epoch) pasts.now 0 result }
    ensures rest { AllWithin (λ (p : Past). epoch < p.from) pasts.now result (length pasts.now) }
    ensures within { result ≤ length pasts.now }
{
    pasts.partition_point(|past| past.from <= epoch)
}

/// The groups that are exclusive in a domain at an epoch.
pub(crate) fn stays_at(
    alloc: Global,
    timeline: &Timeline<'_>,
    domain: u8,
    epoch: u64,
) -> Result<Vec<ExclusiveSpan>, NoMemory>
    requires timeline { IsTimeline domain timeline.now }
    requires known { epoch ≤ length timeline.now.run.journals.now.tree }
    ensures { IfOk result (λ stays. AreStays timeline.now.run.script.now timeline.now.run.journals.now domain epoch stays.items) }
{
    let begun = count_begun(&timeline.run, timeline.pasts, epoch);
    let sweep = sweep_at(alloc, timeline, domain, timeline.pasts.len() + 1 - begun)?;
    Ok(sweep.stays)
}
