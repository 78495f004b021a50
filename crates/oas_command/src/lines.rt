//! Lines, and writing one.

ghost use Rattle.std.specs.Prelude.{◌≡◌, ◌<◌, ◌^◌, IfErr, IfOk, length};
ghost use Rattle.oas_num.specs.Written.{IsWritten, IsCutOff};
ghost use Rattle.oas_command.specs.Lines.{end_byte, line_of, line_of_pieces};

use oas_num::{Content, Device, Refusal, Sink, SinkFault, write_content};

/// What ends a line.
#[derive(Clone, Copy, Debug, PartialEq, Eq)]
pub enum End {
    Newline,
    /// A zero byte, which no name contains.
    Zero,
}

impl End {
    /// The byte that it is.
    pub(crate) fn byte(self) -> u8
        ensures { result ≡ end_byte self }
    {
        match self {
            End::Newline => b'\n',
            End::Zero => 0,
        }
    }
}

/// How the line of a result names its file.
#[derive(Clone, Copy)]
pub struct Label<'a> {
    pub name: &'a str,
    /// Whether the name was escaped.
    pub is_escaped: bool,
    /// What ends the line.
    pub end: End,
}

/// The pieces of a line, one after another.
#[derive(Drop)]
pub struct Pieces<'a> {
    pub first: &'a [u8],
    pub second: &'a [u8],
    pub third: &'a [u8],
    pub fourth: &'a [u8],
    /// What ends the line.
    pub end: u8,
    ghost short: { length (line_of_pieces first.now second.now third.now fourth.now end) < 2 ^ 64 },
}

impl Content for Pieces<'_> {
    ghost use Rattle.oas_command.specs.Lines.{line_of_pieces};

    ghost bytes = { λ p. line_of_pieces p.first.now p.second.now p.third.now p.fourth.now p.end };

    fn put_into<K: Sink>(&self, sink: &mut K) -> Result<(), SinkFault> {
        sink.put_all(self.first)?;
        sink.put_all(self.second)?;
        sink.put_all(self.third)?;
        sink.put_all(self.fourth)?;
        sink.put(self.end)
    }
}

/// Writes a text and the line's end, and returns how many bytes that is.
///
/// A fault of the writer is `Why::Write`. Its place is the number of bytes that the writer took: the first ones of the line.
/// Where it is the number of all of them, the flush failed.
pub fn write_line<W: Device>(writer: &mut W, text: &[u8]) -> Result<u64, Refusal>
    ensures written { IfOk result (IsWritten W.calls writer.old (line_of text.now) writer.new) }
    ensures refused { IfErr result (IsCutOff W.calls writer.old (line_of text.now) writer.new) }
{
    let pieces = Pieces {
        first: text,
        second: b"",
        third: b"",
        fourth: b"",
        end: b'\n',
    };
    write_content(&pieces, writer)
}
