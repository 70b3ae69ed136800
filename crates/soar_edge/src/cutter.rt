ghost use Rattle.std.specs.Prelude.{◌≡◌, ◌+◌, ◌<◌, ◌≤◌, ◌^◌, ◌++◌, [], ◌∷◌, false, true, length, take, drop, if◌then◌else◌, IfOk, OnOk, OnErr};
ghost use Rattle.soar_edge.specs.Cuts.{Cuts, IsUncut};
ghost use Rattle.soar_edge.specs.Holding.{past};
ghost use Rattle.soar_edge.specs.Leading.{BeginsCommand, IsOpenComment, LeadsTo};
ghost use Rattle.soar_edge.specs.Reaching.{IsReach};
ghost use Rattle.soar_edge.specs.Scanning.{newlines, IsScan};

use crate::lead::{Lead, lead_of, newlines};
use crate::reach::{Reach, scan_on};
use crate::scan::Scan;
use soar_sym::{List, NoMemory};
use std::alloc::Global;
use std::marker::Model;

/// A command: its bytes from the first that is neither blank nor in a comment, and the number of its first line, from 1.
#[derive(Drop)]
pub struct Command {
    pub text: List<u8>,
    pub line: u64,
}

/// What stands next in a stream.
#[derive(Drop)]
pub enum Cut {
    /// A whole command.
    Whole(Command),
    /// No whole command yet, and the stream may go on.
    More,
    /// The stream has ended, and only blanks and comments were left.
    End,
    /// The stream has ended inside a brace, bar or string of a command that begins on this line.
    Unfinished(u64),
    /// More than 1 MiB of one command.
    TooLong,
}

/// Cuts a stream of bytes, fed piece by piece, into commands. It takes time linear in the bytes, in whatever pieces they come.
#[derive(Drop)]
pub struct Cutter {
    alloc: Global,
    bytes: Vec<u8>,
    /// Where the bytes begin that are not cut yet.
    start: usize,
    /// How far the command there was scanned.
    scan: Scan,
    line: u64,
    fed: u64,
    closed: bool,
}

impl Model for Cutter {
    ghost use Rattle.std.specs.Prelude.{drop};
    ghost use Rattle.soar_edge.specs.Cuts.{Uncut};
    ghost use Rattle.soar_edge.specs.Holding.{IsHeld};

    ghost Value = { Uncut };

    ghost view = { λ c. record { bytes = drop c.start c.bytes.items; line = c.line; fed = c.fed; closed = c.closed } };

    ghost invariant = { λ c. IsHeld c.bytes.items c.start c.scan c.line c.fed };
}

impl Cutter {
    /// A cutter of a stream of which nothing was fed.
    pub fn new(alloc: Global) -> Result<Cutter, NoMemory>
        ensures { IfOk result (λ cutter. IsUncut cutter) }
    {
        Ok(Cutter {
            alloc,
            bytes: Vec::new(alloc),
            start: 0,
            scan: Scan::new(),
            line: 1,
            fed: 0,
            closed: false,
        })
    }

    /// Feeds the next bytes of the stream. Want of memory feeds none of them.
    pub fn feed(&mut self, piece: &[u8]) -> Result<(), NoMemory>
        requires open { self.old.closed ≡ false }
        requires room { self.old.fed + length piece.now < 2 ^ 63 }
        ensures ok { OnOk result (self.new ≡ record self.old { bytes = self.old.bytes ++ piece.now; fed = self.old.fed + length piece.now }) }
        ensures err { OnErr result (self.new ≡ self.old) }
    {
        self.let_go();
        self.bytes.extend_from_slice(piece)?;
        self.fed += piece.len() as u64;
        Ok(())
    }

    /// Says that the stream has ended.
    pub fn close(&mut self)
        ensures { self.new ≡ record self.old { closed = true } }
    {
        self.closed = true;
    }

    /// Takes the next command off, or tells what stands in its place. Want of memory changes nothing.
    pub fn next_command(&mut self) -> Result<Cut, NoMemory>
        ensures cut { Cuts self.old self.new result }
        ensures fed { self.new.fed ≡ self.old.fed }
        ensures closed { self.new.closed ≡ self.old.closed }
        ensures err { OnErr result (self.new ≡ self.old) }
    {
        match lead_of(self.rest()) {
            Lead::Nothing => {
                self.pass(self.rest().len(), Scan::new());
                Ok(self.nothing_left())
            }
            Lead::Comment(size) => {
                self.pass(size, Scan::new());
                self.shorten();
                Ok(self.nothing_left())
            }
            Lead::Command(size) => self.cut(size),
        }
    }

    /// Takes the command off that stands behind so many bytes, or tells why not.
    fn cut(&mut self, size: usize) -> Result<Cut, NoMemory>
        requires { LeadsTo BeginsCommand self.old.bytes size }
        ensures cut { Cuts self.old self.new result }
        ensures fed { self.new.fed ≡ self.old.fed }
        ensures closed { self.new.closed ≡ self.old.closed }
        ensures err { OnErr result (self.new ≡ self.old) }
    {
        match self.reach(size) {
            Reach::Ends(count) => {
                let command = self.command(size, count)?;
                self.pass(size, Scan::new());
                self.pass(count, Scan::new());
                Ok(Cut::Whole(command))
            }
            Reach::GoesOn(scan) => {
                self.pass(size, scan);
                Ok(self.unfinished())
            }
            Reach::TooLong(scan) => {
                self.pass(size, scan);
                Ok(Cut::TooLong)
            }
        }
    }

    /// How far the command reaches that stands behind so many bytes. What was scanned of it already is not scanned again.
    fn reach(&self, size: usize) -> Reach
        requires { size ≤ length self.now.bytes }
        ensures { IsReach (drop size self.now.bytes) self.now.closed result }
    {
        let scan = if size == 0 { self.scan } else { Scan::new() };
        scan_on(&self.rest()[size..], scan, self.closed)
    }

    /// A copy of the command of so many bytes behind others.
    fn command(&self, size: usize, count: usize) -> Result<Command, NoMemory>
        requires { size + count ≤ length self.now.bytes }
        ensures text { IfOk result (λ command. command.text ≡ take count (drop size self.now.bytes)) }
        ensures line { IfOk result (λ command. command.line ≡ self.now.line + newlines (take size self.now.bytes)) }
    {
        let text = List::from_slice(self.alloc, &self.rest()[size..size + count])?;
        let line = self.line_past(size);
        Ok(Command { text, line })
    }

    /// Goes past so many bytes, to a command that was scanned so far.
    fn pass(&mut self, size: usize, scan: Scan)
        requires within { size ≤ length self.old.bytes }
        requires scanned { IsScan (drop size self.old.bytes) scan }
        ensures { self.new ≡ past self.old size }
    {
        self.line = self.line_past(size);
        self.start += size;
        self.scan = scan;
    }

    /// The number of the line behind so many bytes.
    fn line_past(&self, size: usize) -> u64
        requires { size ≤ length self.now.bytes }
        ensures { result ≡ self.now.line + newlines (take size self.now.bytes) }
    {
        self.line + newlines(&self.rest()[..size]) as u64
    }

    /// Keeps the first byte alone of a comment whose newline has not come.
    fn shorten(&mut self)
        requires { 0 < length self.old.bytes }
        ensures { self.new ≡ record self.old { bytes = take 1 self.old.bytes } }
    {
        self.bytes.truncate(self.start + 1);
        self.scan = Scan::new();
    }

    /// Lets go of the bytes that were cut, once they are half of all.
    fn let_go(&mut self)
        ensures { self.new ≡ self.old }
    {
        if self.start >= self.bytes.len() - self.start {
            self.bytes.drain(..self.start);
            self.start = 0;
        }
    }

    /// The bytes that are not cut yet.
    fn rest(&self) -> &[u8]
        ensures { result.now ≡ self.now.bytes }
    {
        &self.bytes[self.start..]
    }

    /// What is told where only blanks and comments are left.
    fn nothing_left(&self) -> Cut
        ensures { result ≡ (if self.now.closed then Cut.End else Cut.More) }
    {
        if self.closed { Cut::End } else { Cut::More }
    }

    /// What is told of a command that goes on.
    fn unfinished(&self) -> Cut
        ensures { result ≡ (if self.now.closed then Cut.Unfinished self.now.line else Cut.More) }
    {
        if self.closed {
            Cut::Unfinished(self.line)
        } else {
            Cut::More
        }
    }
}
