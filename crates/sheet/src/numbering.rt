// How the lines of a sheet are read.
ghost use Rattle.std.specs.Prelude.{◌≡◌, ◌+◌, false, OnSome};
ghost use Rattle.std.specs.Iterator.{item_count, YieldsFirstRef};
ghost use Rattle.sheet.specs.Lines.{lines_of, LinesAreFound};
ghost use Rattle.sheet.specs.Reading.{unread, Holds, NextLine};

use crate::cursor::Cursor;
use crate::line::{Line, Numbered};
use crate::lines::Lines;

const LINE_END: u8 = b'\n';

// Every text is one list of lines.
pub fn lines_are_found()
    ensures { LinesAreFound }
{}

impl<'a> Line<'a> {
    // What a line that is not empty is, where the header has come before it or not.
    fn of(line: &'a [u8], headed: bool) -> Line<'a>
        ensures { Holds headed line.now result }
    {
        match line {
            [b';', ..] => Line::Remark(line),
            _ if headed => Line::Row(line),
            _ => Line::Header(line),
        }
    }
}

impl<'a> Lines<'a> {
    // The lines of a sheet whose first line that is neither empty nor a remark is a header.
    pub fn new(sheet: &'a [u8]) -> Lines<'a>
        ensures unread { unread result ≡ lines_of sheet.now }
        ensures count { result.count ≡ 0 }
        ensures headed { result.headed ≡ false }
    {
        Lines {
            cursor: Cursor::new(sheet),
            count: 0,
            headed: false,
        }
    }

    // The next line, empty or not, which is counted; none at the end.
    fn any_line(&mut self) -> Option<&'a [u8]>
        ensures line { YieldsFirstRef unread self.old result self.new }
        ensures count { OnSome result (self.new.count ≡ self.old.count + 1) }
        ensures headed { self.new.headed ≡ self.old.headed }
    {
        if self.cursor.ended() {
            return None;
        }
        let line = self.cursor.until(LINE_END);
        self.cursor.pass(LINE_END);
        self.count += 1;
        Some(line)
    }
}

// The lines that are not empty, with their numbers.
impl<'a> Iterator for Lines<'a> {
    type Item = Numbered<'a>;

    ghost next_gives = { NextLine };

    ghost remaining = { item_count unread };

    fn next(&mut self) -> Option<Numbered<'a>> {
        while let Some(line) = self.any_line() {
            if !line.is_empty() {
                let line = Line::of(line, self.headed);
                self.headed |= matches!(line, Line::Header(_));
                return Some(Numbered {
                    number: self.count,
                    line,
                });
            }
        }
        None
    }
}
