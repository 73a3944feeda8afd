// The inputs or the answers of a row, read a byte at a time: numbers, and texts in quotes, of which each byte is a number, with a space
// between each two.
ghost use Rattle.std.specs.Prelude.{◌<◌};

use crate::numbers::{Numbers, append_digit};
use std::mem;

// A row that breaks a rule of the form.
#[derive(Clone, Copy)]
pub struct Malformed;

// What the next byte follows.
#[derive(Clone, Copy, Default, PartialEq, Eq)]
enum After {
    // A space, or nothing.
    #[default]
    Space,
    // A digit: the number as far as it was read.
    Digit(u32),
    // A byte in a text, or its first quote.
    Text,
    // A backslash in a text.
    Backslash,
    // The last quote of a text.
    Quote,
}

#[derive(Default, Drop)]
pub struct Items {
    pub numbers: Numbers,
    after: After,
}

impl Items {
    pub fn is_in_text(&self) -> bool {
        self.after == After::Text
    }

    pub fn is_after_space(&self) -> bool {
        self.after == After::Space
    }

    // A byte of a number or of a text, or the space after it.
    pub fn push(&mut self, byte: u8) -> Result<(), Malformed> {
        match self.after {
            After::Text => self.push_text(byte),
            After::Backslash => self.push_escaped(byte),
            _ => self.push_outside(byte),
        }
    }

    fn push_outside(&mut self, byte: u8) -> Result<(), Malformed> {
        match byte {
            b' ' => self.end(),
            b'"' => self.open_text(),
            b'0'..=b'9' => self.push_digit(byte - b'0'),
            _ => Err(Malformed),
        }
    }

    fn open_text(&mut self) -> Result<(), Malformed> {
        if !self.is_after_space() {
            return Err(Malformed);
        }
        self.after = After::Text;
        Ok(())
    }

    fn push_text(&mut self, byte: u8) -> Result<(), Malformed> {
        match byte {
            b'"' => self.after = After::Quote,
            b'\\' => self.after = After::Backslash,
            _ => self.push_number(u32::from(byte))?,
        }
        Ok(())
    }

    // `\n` is a line feed, and there is no other such pair: other bytes are written as numbers.
    fn push_escaped(&mut self, byte: u8) -> Result<(), Malformed> {
        if byte != b'n' {
            return Err(Malformed);
        }
        self.after = After::Text;
        self.push_number(u32::from(b'\n'))
    }

    fn push_digit(&mut self, digit: u8) -> Result<(), Malformed>
        requires { digit < 10 }
    {
        let value = match self.after {
            After::Space => 0,
            After::Digit(value) => value,
            _ => return Err(Malformed),
        };
        let value = append_digit(value, digit).ok_or(Malformed)?;
        self.after = After::Digit(value);
        Ok(())
    }

    // Ends the number or the text whose last byte was read.
    pub fn end(&mut self) -> Result<(), Malformed> {
        match mem::take(&mut self.after) {
            After::Digit(value) => self.push_number(value),
            After::Quote => Ok(()),
            _ => Err(Malformed),
        }
    }

    fn push_number(&mut self, number: u32) -> Result<(), Malformed> {
        self.numbers.try_push(number).map_err(|_| Malformed)
    }
}
