// Lines of an input, one after the other in bounded memory, and lines of an output in large blocks.
#![tactic(auto)]

ghost use Rattle.std.specs.Prelude.{◌≡◌, ◌+◌, ◌-◌, ◌^◌, ◌<◌, ◌≤◌, ◌++◌, [], length, take, OnOk, OnErr, IfOk};
ghost use Rattle.std.specs.Io.KnownBytes.{Appends};
ghost use Rattle.arrayvec.specs.ArrayVec.{array_vec_len};
ghost use Rattle.lines.specs.Calls.{CalledAtLine};
ghost use Rattle.lines.specs.Rest.{unread, moved, ReadsOn};
ghost use Rattle.lines.specs.Line.{Takes, last, Room, Comes, Answers};

use arrayvec::ArrayVec;
use memchr::memchr;
use std::io;
use std::io::{ErrorKind, Read, Write};
use std::marker::Model;

pub const LINE_END: u8 = b'\n';

// How many bytes are read or written at once.
pub const BLOCK: usize = 65536;

// The bytes that are still to be written.
pub type Output = ArrayVec<u8, BLOCK>;

// Bytes after those that stand there.
pub fn put<const N: usize>(output: &mut ArrayVec<u8, N>, bytes: &[u8])
    requires { array_vec_len output.old + length bytes.now ≤ N }
    ensures { output.new.items ≡ output.old.items ++ bytes.now }
{
    output.try_extend_from_slice(bytes).unwrap();
}

// Holds as much of a piece of a line as there is room for.
fn hold<const N: usize>(line: &mut ArrayVec<u8, N>, piece: &[u8])
    ensures { line.new.items ≡ take N (line.old.items ++ piece.now) }
{
    let count = piece.len().min(line.remaining_capacity());
    put(line, &piece[..count]);
}

// Takes a part of the input up to the line's end, and holds what it has of the line. Where the line ends there, so many
// bytes of the part are taken.
pub fn take_line<const N: usize>(line: &mut ArrayVec<u8, N>, part: &[u8]) -> Option<usize>
    ensures { Takes part.now line.old.items N result line.new.items }
{
    let Some(end) = memchr(LINE_END, part) else {
        hold(line, part);
        return None;
    };
    hold(line, &part[..end]);
    Some(end + 1)
}

// Whether what the end of the input ends is a line: one if it has a byte.
fn is_line(held: &[u8]) -> bool
    ensures { result ≡ last held.now }
{
    !held.is_empty()
}

// An input, of which a block is read at a time: from `at` up to `end` the block is still to be taken. `closed` is true once
// no more can come. No ArrayVec, since a reader fills a slice, and no Option in place of `closed`, since the block stays.
#[derive(Drop)]
struct Input<R> {
    reader: R,
    block: [u8; BLOCK],
    at: usize,
    end: usize,
    closed: bool,
}

// Clauses see what is still to be taken of the block, where that begins, and whether the input is closed.
impl<R> Model for Input<R> {
    ghost use Rattle.std.specs.Prelude.{◌≤◌, slice_range};
    ghost use Rattle.lines.specs.Rest.{Rest};
    ghost use Rattle.lines.specs.declared.TheConstants.{BLOCK};

    ghost Value = { Rest };

    ghost view = { λ input. record { at = input.at; part = slice_range input.block input.at input.end; closed = input.closed } };

    ghost invariant = { λ input. (input.at ≤ input.end) × (input.end ≤ BLOCK) };
}

impl<R: Read + Drop> Input<R> {
    fn new(reader: R) -> Self
        ensures { result ≡ unread }
    {
        Self {
            reader,
            block: [0; BLOCK],
            at: 0,
            end: 0,
            closed: false,
        }
    }

    fn rest(&self) -> &[u8]
        ensures { result.now ≡ self.now.part }
    {
        &self.block[self.at..self.end]
    }

    fn take(&mut self, used: usize)
        requires { used ≤ length self.old.part }
        ensures { self.new ≡ moved self.old used }
    {
        self.at += used;
    }

    // Reads the next part: `false` once no more can come.
    fn read(&mut self) -> io::Result<bool>
        ensures { IfOk result (λ more. ReadsOn self.old more self.new) }
    {
        self.at = 0;
        self.end = 0;
        if self.closed {
            return Ok(false);
        }
        self.end = self.reader.read(&mut self.block)?;
        self.closed = self.end == 0;
        Ok(!self.closed)
    }
}

// The input and the output of a program. The last line that came stands in `line`.
#[derive(Drop)]
pub struct Lines<R, W, const N: usize> {
    input: Input<R>,
    writer: W,
    line: ArrayVec<u8, N>,
    output: Output,
}

impl<R: Read + Drop, W: Write + Drop, const N: usize> Lines<R, W, N> {
    // Nothing is read and nothing is to be written yet.
    pub fn new(reader: R, writer: W) -> Self
        ensures nothing_read { result.input ≡ unread }
        ensures nothing_to_write { result.output.items ≡ [] }
    {
        Self {
            input: Input::new(reader),
            writer,
            line: ArrayVec::new(),
            output: ArrayVec::new(),
        }
    }

    // Writes what is still to be written.
    fn write_out(&mut self) -> io::Result<()>
        ensures sent { OnOk result (Appends (W.contents self.old.writer) (W.contents self.new.writer) self.old.output.items) }
        ensures written { OnOk result (self.new.output.items ≡ []) }
        ensures input { self.new.input ≡ self.old.input }
        ensures line { self.new.line ≡ self.old.line }
    {
        self.writer.write_all(&self.output)?;
        self.output.clear();
        Ok(())
    }

    // Writes what is still to be written, unless there is room for so many bytes more.
    fn make_room(&mut self, room: usize) -> io::Result<()>
        requires { room ≤ BLOCK }
        ensures made { OnOk result (Room BLOCK room self.old.output.items self.new.output.items) }
        ensures full { OnErr result (BLOCK < array_vec_len self.old.output + room) }
        ensures room { OnOk result (array_vec_len self.new.output + room ≤ BLOCK) }
        ensures input { self.new.input ≡ self.old.input }
    {
        if room <= self.output.remaining_capacity() {
            return Ok(());
        }
        self.write_out()
    }

    // Writes what is ready before it waits for input, and reads the next part: `false` once no more can come.
    fn read_on(&mut self) -> io::Result<bool>
        ensures sent { OnOk result (Appends (W.contents self.old.writer) (W.contents self.new.writer) self.old.output.items) }
        ensures written { OnOk result (self.new.output.items ≡ []) }
        ensures read { IfOk result (λ more. ReadsOn self.old.input more self.new.input) }
        ensures line { self.new.line ≡ self.old.line }
    {
        self.write_out()?;
        self.input.read()
    }

    // Whether there is a next line, which then stands in `line`; with room for so many bytes of output. The number of turns
    // is one that no input uses up.
    pub fn next_line(&mut self, room: usize) -> io::Result<bool>
        requires { room ≤ BLOCK }
        ensures line { Comes N BLOCK room self.old.input self.old.output.items result self.new.line.items self.new.input self.new.output.items }
        ensures room { OnOk result (array_vec_len self.new.output + room ≤ BLOCK) }
    {
        self.make_room(room)?;
        self.line.clear();
        for _ in 0..u64::MAX {
            if let Some(used) = take_line(&mut self.line, self.input.rest()) {
                self.input.take(used);
                return Ok(true);
            }
            if !self.read_on()? {
                return Ok(is_line(&self.line));
            }
        }
        Err(io::Error::from(ErrorKind::Other))
    }

    // Answers each line: `answer` adds its answer to the output, where there is room for so many bytes. Of a line at most
    // its first `N` bytes are given.
    pub fn each_line<F: FnMut(&[u8], &mut Output)>(
        &mut self,
        room: usize,
        mut answer: F,
    ) -> io::Result<()>
        requires room { room ≤ BLOCK }
        requires callable { (state : F) (line : _) (output : _) → length line.now ≤ N → array_vec_len output.now + room ≤ BLOCK → F.pre state line output }
        ensures answered { Answers N BLOCK room (CalledAtLine F.FnMut) (2 ^ 64 - 1) self.old.input self.old.output.items answer result }
        ensures written { OnOk result (self.new.output.items ≡ []) }
    {
        for _ in 0..u64::MAX {
            if !self.next_line(room)? {
                return self.write_out();
            }
            answer(&self.line, &mut self.output);
        }
        Err(io::Error::from(ErrorKind::Other))
    }
}
