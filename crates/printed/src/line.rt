// The lines of a call, one by one.
ghost use Rattle.std.specs.Prelude.{◌≡◌, [], ◌+◌, ◌*◌, ◌≤◌, length, get_or, take, drop};
ghost use Rattle.report.specs.Placed.{Placed};
ghost use Rattle.decimals.specs.Puts.{Puts};
ghost use Rattle.printed.specs.Numbers.{later_lines, row_lines, accepted_lines, lines_of};

use crate::count::{is_refused, row_count};
use crate::group::{GROUPS, put_group};
use crate::row::{put_accepted, put_entry, put_held, put_refused, put_unmapped};
use crate::term::{TERMS, put_term};
use decimals::Line;
use report::{ENTRY_WIDTH, HELD_WIDTH, UNMAPPED_WIDTH};

// Row j of a list of rows of a width.
fn row_at(rows: &[i64], width: usize, j: usize) -> &[i64]
    requires { j * width + width ≤ length rows.now }
    ensures { result.now ≡ take width (drop (j * width) rows.now) }
{
    &rows[j * width..][..width]
}

// The text of a call and the numbers that it leaves.
#[derive(Clone, Copy)]
struct Left<'a> {
    text: &'a [u8],
    answer: &'a [i64],
    held: &'a [i64],
    entries: &'a [i64],
    unmapped: &'a [i64],
}

impl Left<'_> {
    // Puts the line of row j of the entries and the unmapped elements.
    fn put_later_row(&self, line: &mut Line, j: usize)
        ensures { Puts (get_or (later_lines self.now.text.now self.now.answer.now self.now.entries.now self.now.unmapped.now) j []) line.old line.new }
    {
        let e = row_count(ENTRY_WIDTH, self.answer, 3, self.entries);
        if j < e {
            return put_entry(line, self.text, row_at(self.entries, ENTRY_WIDTH, j));
        }
        let u = row_count(UNMAPPED_WIDTH, self.answer, 4, self.unmapped);
        if j - e < u {
            put_unmapped(
                line,
                self.text,
                row_at(self.unmapped, UNMAPPED_WIDTH, j - e),
            );
        }
    }

    // That of row j of all three lists.
    fn put_any_row(&self, line: &mut Line, j: usize)
        ensures { Puts (get_or (row_lines self.now.text.now self.now.answer.now self.now.held.now self.now.entries.now self.now.unmapped.now) j []) line.old line.new }
    {
        let h = row_count(HELD_WIDTH, self.answer, 2, self.held);
        if j < h {
            return put_held(line, self.text, row_at(self.held, HELD_WIDTH, j));
        }
        self.put_later_row(line, j - h);
    }

    // Line k of a call that read: the counts, five groups, thirty terms, the rows.
    fn put_accepted_line(&self, line: &mut Line, k: usize)
        ensures { Puts (get_or (accepted_lines self.now.text.now self.now.answer.now self.now.held.now self.now.entries.now self.now.unmapped.now) k []) line.old line.new }
    {
        if k < 1 {
            return put_accepted(line, self.text, self.answer);
        }
        if k < 6 {
            return put_group(line, self.answer, GROUPS[k - 1]);
        }
        if k < 36 {
            return put_term(line, self.text, self.answer, TERMS[k - 6]);
        }
        self.put_any_row(line, k - 36);
    }

    // Line k of a call.
    fn put_call_line(&self, line: &mut Line, k: usize)
        ensures { Puts (get_or (lines_of self.now.text.now self.now.answer.now self.now.held.now self.now.entries.now self.now.unmapped.now) k []) line.old line.new }
    {
        if !is_refused(self.answer) {
            return self.put_accepted_line(line, k);
        }
        if k < 1 {
            put_refused(line, self.text, self.answer);
        }
    }
}

// Puts line k of a call at the front, nothing for an absent group or term, and past the last line, and
// answers where it ends.
// By a number, so that a host asks for line after line; which step it is, a `match` of numbers says.
pub fn put_line(
    out: &mut [u8],
    text: &[u8],
    answer: &[i64],
    held: &[i64],
    entries: &[i64],
    unmapped: &[i64],
    k: usize,
) -> usize
    ensures { Placed out.old 0 (get_or (lines_of text.now answer.now held.now entries.now unmapped.now) k []) out.new result }
{
    let left = Left {
        text,
        answer,
        held,
        entries,
        unmapped,
    };
    let mut line = Line { out, at: 0 };
    left.put_call_line(&mut line, k);
    line.at
}
