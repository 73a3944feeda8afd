// A row of a data file, read a byte at a time: a name, inputs, `=` and answers, with a space between each two.
use crate::items::{Items, Malformed};
use crate::kind::Kind;
use crate::numbers::Numbers;
use arrayvec::ArrayVec;

// How many bytes a name has at most. A row with a longer one is malformed.
const LONGEST_NAME: usize = 64;

// The part of the line that the next byte belongs to.
#[derive(Clone, Copy, Default, PartialEq, Eq)]
enum Part {
    #[default]
    Start,
    Name,
    Inputs,
    Equals,
    Answers,
    Comment,
    Malformed,
}

// A line as far as it was read.
#[derive(Default, Drop)]
pub struct Row {
    part: Part,
    name: ArrayVec<u8, LONGEST_NAME>,
    inputs: Items,
    answers: Items,
}

// What a row stores: the inputs of a call and its answers.
#[derive(Drop)]
pub struct Stored {
    pub kind: Kind,
    pub inputs: Numbers,
    pub answers: Numbers,
}

impl Row {
    // Whether no byte of the line was read.
    pub fn is_empty(&self) -> bool {
        self.part == Part::Start
    }

    // Whether the line is a comment.
    pub fn is_comment(&self) -> bool {
        self.part == Part::Comment
    }

    // Reads one byte more, which is not the line feed.
    pub fn push(&mut self, byte: u8) {
        if self.try_push(byte).is_err() {
            self.part = Part::Malformed;
        }
    }

    fn try_push(&mut self, byte: u8) -> Result<(), Malformed> {
        match self.part {
            Part::Start if byte == b'#' => self.part = Part::Comment,
            Part::Start | Part::Name => self.push_name(byte)?,
            Part::Inputs => self.push_input(byte)?,
            Part::Equals if byte == b' ' => self.part = Part::Answers,
            Part::Equals => return Err(Malformed),
            Part::Answers => self.answers.push(byte)?,
            Part::Comment | Part::Malformed => {}
        }
        Ok(())
    }

    fn push_name(&mut self, byte: u8) -> Result<(), Malformed> {
        if byte == b' ' {
            self.part = Part::Inputs;
            return Ok(());
        }
        self.part = Part::Name;
        self.name.try_push(byte).map_err(|_| Malformed)
    }

    fn push_input(&mut self, byte: u8) -> Result<(), Malformed> {
        if byte != b'=' || self.inputs.is_in_text() {
            return self.inputs.push(byte);
        }
        if !self.inputs.is_after_space() {
            return Err(Malformed);
        }
        self.part = Part::Equals;
        Ok(())
    }

    // What the row stores, after its line feed.
    pub fn finish(self) -> Result<Stored, Malformed> {
        let Row {
            part,
            name,
            inputs,
            mut answers,
        } = self;
        if part != Part::Answers {
            return Err(Malformed);
        }
        answers.end()?;
        Ok(Stored {
            kind: Kind::of(name.as_slice()).ok_or(Malformed)?,
            inputs: inputs.numbers,
            answers: answers.numbers,
        })
    }
}
