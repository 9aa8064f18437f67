//! The lines that are printed for faults.
ghost use Rattle.std.specs.Prelude.{◌≡◌, ◌+◌, ◌++◌, ◌∷◌, [], ◌<◌, ◌≤◌, length};
ghost use Rattle.std.specs.Fmt.{decimal};
ghost use Rattle.bitfields_core.specs.Fault.{fault_line};

use crate::fault::Fault;
use std::marker::Model;

/// The line of a fault: `bitfields: field K: REASON`, and LF. It has its own buffer and does not
/// allocate, since the fault may be a failed allocation.
#[derive(Drop)]
pub struct FaultLine {
    buffer: [u8; 64],
    len: usize,
}

impl Model for FaultLine {
    ghost use Rattle.std.specs.Prelude.{ℕ, List, take, ◌≤◌};

    ghost Value = { List ℕ };

    ghost view = { λ l. take l.len l.buffer };

    ghost invariant = { λ l. l.len ≤ 64 };
}

impl FaultLine {
    /// Returns the line of a fault.
    pub fn of(fault: Fault) -> FaultLine
        ensures { result ≡ fault_line fault }
    {
        let mut line = FaultLine {
            buffer: [0; 64],
            len: 0,
        };
        line.push_text("bitfields: field ");
        line.push_decimal(fault.field);
        line.push_text(": ");
        line.push_text(fault.reason.text());
        line.push(b'\n');
        line
    }

    /// Returns the bytes of the line.
    pub fn as_slice(&self) -> &[u8]
        ensures { result.now ≡ self.now }
    {
        &self.buffer[..self.len]
    }

    fn push(&mut self, byte: u8)
        requires { length self.old < 64 }
        ensures { self.new ≡ self.old ++ byte ∷ [] }
    {
        self.buffer[self.len] = byte;
        self.len += 1;
    }

    fn push_text(&mut self, text: &str)
        requires { length self.old + length text.now ≤ 64 }
        ensures { self.new ≡ self.old ++ text.now }
    {
        for byte in text.as_bytes() {
            self.push(*byte);
        }
    }

    fn push_decimal(&mut self, number: usize)
        requires { length self.old + 20 ≤ 64 }
        ensures text { self.new ≡ self.old ++ decimal number }
        ensures most { length self.new ≤ length self.old + 20 }
    {
        if number < 10 {
            return self.push(b'0' + number as u8);
        }
        self.push_decimal(number / 10);
        self.push(b'0' + (number % 10) as u8);
    }
}
