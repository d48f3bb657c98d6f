//! The texts of the files of a group.
ghost use Rattle.std.specs.Prelude.{◌≡◌, ◌+◌, ◌-◌, ◌<◌, ◌≤◌, ◌++◌, [], ◌∷◌, length};
ghost use Rattle.std.specs.List.{flat_map};
ghost use Rattle.pair_law.specs.Texts.{file_text, side_line, text_of};
ghost use Rattle.pair_text.specs.Values.{AreMachines, side_machine};
ghost use Rattle.pair_text.specs.declared.side.Side.TheVariants.{First, Second};
ghost use Rattle.pair_tree.specs.Printed.{entry_at, mode_line, others_text, task_line};
ghost use Rattle.pair_tree.specs.Tables.{state_of};
ghost use Rattle.rc_base.specs.declared.text_buf.TheConstants.{TEXT_MAX};
ghost use Rattle.schemata_text.specs.Printed.{entry_text};
ghost use Rattle.script_ops.specs.declared.limits.TheConstants.{MOST_TASKS};

use crate::lookup::place_of;
use crate::machines::Machines;
use crate::masks::mask_in;
use crate::sides::side_name;
use crate::tables::Tables;
use command_parts::mode_name;
use num_text::{push_dec, push_hex};
use pair_text::{PairFile, PairGroup, Side};
use path_names::FileKind;
use rc_base::{Gid, Mode, TextBuf};
use task_binding::Binding;

// How many bytes `id=mask` has at most: three digits, the sign, and eight digits.
const ENTRY_MAX: usize = 12;

// Adds `id=mask`.
fn push_entry(domain: u8, mask: u32, ways: u8, out: &mut TextBuf)
    requires ways { ways ≤ 32 }
    requires room { 24 ≤ out.old.spare }
    ensures bytes { out.new.bytes ≡ out.old.bytes ++ entry_text ways (record { domain = domain; mask = mask }) }
    ensures spare { out.new.spare + length (entry_text ways (record { domain = domain; mask = mask })) ≡ out.old.spare }
    ensures short { length (entry_text ways (record { domain = domain; mask = mask })) ≤ ENTRY_MAX }
{
    push_dec(u64::from(domain), out);
    out.push(b'=');
    push_hex(u64::from(mask), ways.div_ceil(4), out);
}

// Adds the entry of a domain of a side.
fn push_domain(m: &Machines, g: &PairGroup, side: Side, domain: u8, out: &mut TextBuf)
    requires domain { domain < 8 }
    requires room { 24 ≤ out.old.spare }
    ensures bytes { out.new.bytes ≡ out.old.bytes ++ entry_at m.now g.now side domain }
    ensures spare { out.new.spare + length (entry_at m.now g.now side domain) ≡ out.old.spare }
    ensures short { length (entry_at m.now g.now side domain) ≤ ENTRY_MAX }
{
    push_entry(domain, mask_in(g, side, domain), m.side(side).ways, out);
}

// Adds the entries of the domains of a side after the first, each after a `;`.
fn push_others(m: &Machines, g: &PairGroup, side: Side, out: &mut TextBuf)
    requires some { 0 < (side_machine m.now side).domains }
    requires room { 144 ≤ out.old.spare }
    ensures bytes { out.new.bytes ≡ out.old.bytes ++ others_text m.now g.now side 1 }
    ensures spare { out.new.spare + length (others_text m.now g.now side 1) ≡ out.old.spare }
    ensures short { length (others_text m.now g.now side 1) ≤ 104 }
{
    for domain in 1..m.domains(side) {
        out.push(b';');
        push_domain(m, g, side, domain, out);
    }
}

// Adds the line of a side.
fn push_side(m: &Machines, g: &PairGroup, side: Side, out: &mut TextBuf)
    requires some { 0 < (side_machine m.now side).domains }
    requires room { 256 ≤ out.old.spare }
    ensures bytes { out.new.bytes ≡ out.old.bytes ++ side_line m.now g.now side }
    ensures spare { out.new.spare + length (side_line m.now g.now side) ≡ out.old.spare }
    ensures short { length (side_line m.now g.now side) ≤ 256 }
{
    out.push_all(side_name(m, side).as_bytes());
    out.push(b':');
    push_domain(m, g, side, 0, out);
    push_others(m, g, side, out);
    out.push(b'\n');
}

// Adds the lines of both sides.
fn push_sides(m: &Machines, g: &PairGroup, out: &mut TextBuf)
    requires machines { AreMachines m.now }
    requires room { 512 ≤ out.old.spare }
    ensures bytes { out.new.bytes ≡ out.old.bytes ++ (side_line m.now g.now First ++ side_line m.now g.now Second) }
    ensures spare { out.new.spare + length (side_line m.now g.now First ++ side_line m.now g.now Second) ≡ out.old.spare }
{
    push_side(m, g, Side::First, out);
    push_side(m, g, Side::Second, out);
}

// Adds the name of a mode, on its line.
fn push_mode(mode: Mode, out: &mut TextBuf)
    requires room { 32 ≤ out.old.spare }
    ensures bytes { out.new.bytes ≡ out.old.bytes ++ mode_line mode }
    ensures spare { out.new.spare + length (mode_line mode) ≡ out.old.spare }
{
    out.push_all(mode_name(mode).as_bytes());
    out.push(b'\n');
}

// Adds the number of a task on its line, where it is the group's.
fn push_task(gid: Gid, b: &Binding, out: &mut TextBuf)
    requires room { 21 ≤ out.old.spare }
    ensures bytes { out.new.bytes ≡ out.old.bytes ++ task_line gid b.now }
    ensures spare { out.new.spare + length (task_line gid b.now) ≡ out.old.spare }
    ensures short { length (task_line gid b.now) ≤ 21 }
{
    if b.control == gid {
        push_dec(u64::from(b.task), out);
        out.push(b'\n');
    }
}

// Adds the numbers of those of these tasks that are the group's, each on its line.
fn push_tasks(gid: Gid, tasks: &[Binding], out: &mut TextBuf)
    requires few { length tasks.now ≤ MOST_TASKS }
    requires room { TEXT_MAX ≤ out.old.spare }
    ensures bytes { out.new.bytes ≡ out.old.bytes ++ flat_map (task_line gid) tasks.now }
    ensures spare { out.new.spare + length (flat_map (task_line gid) tasks.now) ≡ out.old.spare }
{
    for b in tasks {
        push_task(gid, b, out);
    }
}

impl Tables {
    // Adds the text of a file of a group.
    fn push_file(&self, m: &Machines, g: &PairGroup, kind: FileKind, out: &mut TextBuf)
        requires machines { AreMachines m.now }
        requires few { length self.now.tasks ≤ MOST_TASKS }
        requires room { TEXT_MAX ≤ out.old.spare }
        ensures bytes { out.new.bytes ≡ out.old.bytes ++ file_text m.now (state_of self.now) g.now kind }
        ensures spare { out.new.spare + length (file_text m.now (state_of self.now) g.now kind) ≡ out.old.spare }
    {
        match kind {
            FileKind::Schemata => push_sides(m, g, out),
            FileKind::Mode => push_mode(g.mode, out),
            FileKind::Tasks => push_tasks(g.gid, self.tasks.bindings(), out),
            _ => {}
        }
    }

    /// Adds the text of a file, and nothing where its group is not there.
    pub(crate) fn text(&self, m: &Machines, file: &PairFile, out: &mut TextBuf)
        requires machines { AreMachines m.now }
        requires few { length self.now.tasks ≤ MOST_TASKS }
        requires room { TEXT_MAX ≤ out.old.spare }
        ensures bytes { out.new.bytes ≡ out.old.bytes ++ text_of m.now (state_of self.now) file.now }
        ensures spare { out.new.spare + length (text_of m.now (state_of self.now) file.now) ≡ out.old.spare }
    {
        if let Some(place) = place_of(&self.groups, &file.group) {
            self.push_file(m, &self.groups[place], file.kind, out);
        }
    }
}
