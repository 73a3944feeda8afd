// Reads a data file, and compares each row with the library's answer as the row ends.
use crate::kind::Kind;
use crate::row::{Row, Stored};
use crate::tally::Tally;
use crate::{calls, report};
use std::{io, mem};

// A file as far as it was read: the line that is being read, and the counts of those before it.
#[derive(Default, Drop)]
pub struct Reader {
    row: Row,
    tally: Tally,
}

impl Reader {
    pub fn push_all(&mut self, rt: &impl Print, bytes: &[u8]) -> io::Result<()> {
        for byte in bytes {
            self.push(rt, *byte)?;
        }
        Ok(())
    }

    fn push(&mut self, rt: &impl Print, byte: u8) -> io::Result<()> {
        if byte == b'\n' {
            self.end_line(rt)
        } else {
            self.row.push(byte);
            Ok(())
        }
    }

    fn end_line(&mut self, rt: &impl Print) -> io::Result<()> {
        self.tally.count_line();
        let row = mem::take(&mut self.row);
        if row.is_empty() || row.is_comment() {
            return Ok(());
        }
        let Some((kind, is_same)) = compare(row) else {
            return self.refuse(rt);
        };
        if !is_same {
            report::write_difference(rt, kind, self.tally.line)?;
        }
        self.tally.count_row(kind, is_same);
        Ok(())
    }

    // Counts the line as one that is not understood.
    fn refuse(&mut self, rt: &impl Print) -> io::Result<()> {
        report::write_not_understood(rt, self.tally.line)?;
        self.tally.count_not_understood();
        Ok(())
    }

    // The counts of the whole file. A last line that has no line feed is not understood.
    pub fn finish(mut self, rt: &impl Print) -> io::Result<Tally> {
        if !self.row.is_empty() {
            self.tally.count_line();
            self.refuse(rt)?;
        }
        Ok(self.tally)
    }
}

// The row's kind, and whether its answers are the library's. A row whose call gives no answer, or not as many fields as the row has, is
// not understood; a list of days can be longer or shorter than that of the row.
fn compare(row: Row) -> Option<(Kind, bool)> {
    let Stored {
        kind,
        inputs,
        answers,
    } = row.finish().ok()?;
    let answer = calls::answer(kind, inputs.as_slice())?;
    if !kind.is_list() && answer.len() != answers.len() {
        return None;
    }
    Some((kind, answer == answers))
}
