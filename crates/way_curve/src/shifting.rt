//! The shift that brings a line to the front of a list.
ghost use Rattle.way_curve.specs.Shifts.{IsShift};

/// Where a shift ended.
#[derive(Clone, Copy, Debug, PartialEq, Eq)]
pub enum Shift {
    /// At the place where the line was.
    Found(usize),
    /// At the end of the list, with its last line, which has no place now.
    Last(u64),
}

/// Puts a line in front, and each line that stood before its old place one place further back.
#[inline(always)]
pub fn move_to_front(lines: &mut [u64], line: u64) -> Shift
    ensures { IsShift lines.old lines.new line result }
{
    let mut carried = line;
    for place in 0..lines.len() {
        let passed = lines[place];
        lines[place] = carried;
        if passed == line {
            return Shift::Found(place);
        }
        carried = passed;
    }
    Shift::Last(carried)
}
