//! An order for the journals of an input.
ghost use Rattle.std.specs.Prelude.{◌≡◌, ◌≤◌, IfOk, IsTrue, List, ℕ, length};
ghost use Rattle.call_rim.specs.Performing.{Performs};
ghost use Rattle.check_parts.specs.BadInputs.{script_bytes};
ghost use Rattle.check_parts.specs.Inputs.{HoldsJournals};
ghost use Rattle.check_parts.specs.declared.form.Form.TheVariants.{Check};
ghost use Rattle.replay_top.specs.Lines.{other_lines};
ghost use Rattle.replay_top.specs.Reports.{Finds, Makes, Refuses, TellsUnordered};
ghost use Rattle.run_law.specs.Runs.{IsRun};
ghost use Rattle.step_world.specs.Play.{IsPlay};
ghost use Rattle.script_ops.specs.Values.{IsLawful};
ghost use Rattle.script_ops.specs.declared.limits.TheConstants.{MOST_SCRIPT_BYTES};

use crate::blocked_text::{no_order_text, too_long_text};
use crate::inserting::with_orders;
use crate::lines::has_same_lines;
use crate::outcome::Replayed;
use crate::same::are_same;
use call_rim::Performed;
use check_parts::{InputError, script_in};
use machine::Machine;
use order_search::{BlockedStep, Found, orders_of};
use rc_base::NoMemory;
use run_law::Journals;
use script_ops::{MOST_ORDER, MOST_SCRIPT_BYTES, Script};
use std::alloc::Global;

// The report where no order was found.
fn without_order(alloc: Global, steps: &[BlockedStep], machine: &Machine) -> Performed<Replayed>
    ensures { TellsUnordered result }
{
    match no_order_text(alloc, steps, machine) {
        Ok(report) => Performed::Reported {
            outcome: Replayed::NoOrder,
            report,
        },
        Err(NoMemory) => Performed::NoMemory,
    }
}

// The report of an order that no script can hold.
fn too_long(alloc: Global) -> Performed<Replayed>
    ensures { TellsUnordered result }
{
    match too_long_text(alloc) {
        Ok(report) => Performed::Reported {
            outcome: Replayed::TooLong,
            report,
        },
        Err(NoMemory) => Performed::NoMemory,
    }
}

// Whether the play of a script makes these journals, which have so many slices.
fn is_play(
    alloc: Global,
    script: &Script,
    journals: &Journals,
    slices: u8,
) -> Result<bool, NoMemory>
    requires { length journals.now.slices ≡ slices }
    ensures { IfOk result (λ same. IsTrue same → IsPlay script.now journals.now) }
{
    if script.machine().slice_count() != slices {
        return Ok(false);
    }
    let played = step_world::play(alloc, script)?;
    Ok(are_same(&played, journals, slices))
}

// Whether a text is a script whose play makes these journals, which have so many slices.
fn makes(alloc: Global, text: &[u8], journals: &Journals, slices: u8) -> Result<bool, NoMemory>
    requires few { length text.now ≤ MOST_SCRIPT_BYTES }
    requires slices { length journals.now.slices ≡ slices }
    ensures { IfOk result (λ same. IsTrue same → Makes text.now journals.now) }
{
    match script_in(alloc, text) {
        Ok(script) => is_play(alloc, &script, journals, slices),
        Err(InputError::Bad(_)) => Ok(false),
        Err(InputError::NoMemory) => Err(NoMemory),
    }
}

// Whether a text with an order has the lines of another, and its play makes these journals, which have so many slices.
fn is_confirmed(
    alloc: Global,
    text: Vec<u8>,
    ordered: &[u8],
    journals: &Journals,
    slices: u8,
) -> Result<bool, NoMemory>
    requires few { length ordered.now ≤ MOST_SCRIPT_BYTES }
    requires slices { length journals.now.slices ≡ slices }
    ensures lines { IfOk result (λ same. IsTrue same → other_lines ordered.now ≡ other_lines text.items) }
    ensures makes { IfOk result (λ same. IsTrue same → Makes ordered.now journals.now) }
{
    if !has_same_lines(ordered, &text) {
        return Ok(false);
    }
    // Its play takes memory, and the text is not looked at again.
    drop(text);
    makes(alloc, ordered, journals, slices)
}

// The report of a text with an order, where its play makes the journals.
fn confirm(
    alloc: Global,
    text: Vec<u8>,
    ordered: Vec<u8>,
    script: Script,
    journals: Journals,
) -> Performed<Replayed>
    requires few { length ordered.items ≤ MOST_SCRIPT_BYTES }
    requires lawful { IsLawful script }
    requires run { IsRun script journals }
    ensures { (bytes : List ℕ) → HoldsJournals bytes script journals → text.items ≡ script_bytes Check bytes → Performs Refuses Finds bytes result }
{
    let machine = *script.machine();
    // The text with the order is read as a script of its own.
    drop(script);
    match is_confirmed(alloc, text, &ordered, &journals, machine.slice_count()) {
        Ok(true) => Performed::Reported {
            outcome: Replayed::Ordered(journals),
            report: ordered,
        },
        Ok(false) => without_order(alloc, &[], &machine),
        Err(NoMemory) => Performed::NoMemory,
    }
}

// The report of an order that was found.
fn write_order(
    alloc: Global,
    text: Vec<u8>,
    orders: &[Vec<u32>],
    script: Script,
    journals: Journals,
) -> Performed<Replayed>
    requires lawful { IsLawful script }
    requires run { IsRun script journals }
    ensures { (bytes : List ℕ) → HoldsJournals bytes script journals → text.items ≡ script_bytes Check bytes → Performs Refuses Finds bytes result }
{
    if orders.iter().any(|order| MOST_ORDER < order.len()) {
        return too_long(alloc);
    }
    match with_orders(alloc, &text, orders) {
        Ok(ordered) => {
            if MOST_SCRIPT_BYTES < ordered.len() {
                return too_long(alloc);
            }
            confirm(alloc, text, ordered, script, journals)
        }
        Err(NoMemory) => Performed::NoMemory,
    }
}

/// The script of a text with an order of all steps that makes these journals, which are a run of it, or why there is none.
pub(crate) fn order(
    alloc: Global,
    text: Vec<u8>,
    script: Script,
    journals: Journals,
) -> Performed<Replayed>
    requires lawful { IsLawful script }
    requires run { IsRun script journals }
    ensures { (bytes : List ℕ) → HoldsJournals bytes script journals → text.items ≡ script_bytes Check bytes → Performs Refuses Finds bytes result }
{
    match orders_of(alloc, &script, &journals) {
        Ok(Found::Orders(orders)) => write_order(alloc, text, &orders, script, journals),
        Ok(Found::Blocked(steps)) => without_order(alloc, &steps, script.machine()),
        Err(NoMemory) => Performed::NoMemory,
    }
}
