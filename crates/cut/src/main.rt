// The cutting program: lines of base, tab and length on standard input, a line for each on standard
// output. `cut_lines` says what is written; here are only the blocks that are read and written.
//
// No contract can say which bytes the system gives or takes. So each function here says what it
// comes to by what the reads and writes answered, and a failure carries the answer that it comes
// from. Where a reader's bytes are known and a writer's, as of those over memory, `cut_all` says
// all that was written.
//
// `packaging/proved cut` builds it as target/bin/cut: target/bin/cut < requests > cuts
#![tactic(auto)]

ghost use Rattle.std.specs.Prelude.{◌≡◌, ◌≤◌, length, take, IfErr, OnOk};
ghost use Rattle.std.specs.Io.KnownBytes.{Appends};
ghost use Rattle.cut.specs.Turns.{count, IsFailedWrite, Taken, AfterRead, Turned, Starts, LastWritten, Ends};
ghost use Rattle.cut.specs.Bytes.{TurnWrites, TurnMoves, RunMoves, AllWritten};
ghost use Rattle.cut_lines.specs.Lines.{header_text};
ghost use Rattle.cut_lines.specs.Scanning.{scan_text, last_text};
ghost use Rattle.cut_lines.specs.Writing.{longest};

use cut_lines::Scan;
use std::io;
use std::io::{Read, Write};

// Lines count from 1.
const FIRST_LINE: u64 = 1;

// The bytes that are read at most at once.
const INPUT_BYTES: usize = 65536;

// The bytes of the output buffer: room for many lines.
const OUTPUT_BYTES: usize = 131072;

// Why a run isn't done: a call failed, with its error, or the turns were used up.
#[derive(Clone, Copy)]
enum Failure {
    Read(io::Error),
    Write(io::Error),
    OutOfTurns,
}

// The output buffer: it has room for the longest line. Its writer stays beside it: of a `&mut` in a
// struct each contract would have to say that it is still the same one.
#[derive(Drop)]
struct Output<const N: usize> {
    bytes: [u8; N],
    ghost room: { longest ≤ length bytes },
}

// Writes out a text.
fn send<W: Write>(text: &[u8], writer: &mut W) -> Result<(), Failure>
    ensures failed { IfErr result IsFailedWrite }
    ensures written { OnOk result (Appends (W.contents writer.old) (W.contents writer.new) text.now) }
{
    writer.write_all(text).map_err(Failure::Write)
}

// Takes the whole of a block, and writes out what belongs to it.
fn take_block<W: Write, const N: usize>(
    scan: Scan,
    input: &[u8],
    output: &mut Output<N>,
    writer: &mut W,
) -> Result<Scan, Failure>
    ensures taken { Taken scan input.now output.new.bytes result }
    ensures written { OnOk result (Appends (W.contents writer.old) (W.contents writer.new) (scan_text scan input.now)) }
{
    let mut s = scan;
    let mut rest = input;
    while !rest.is_empty() {
        let p = cut_lines::process(s, rest, &mut output.bytes);
        send(&output.bytes[..p.written], writer)?;
        s = p.scan;
        rest = &rest[p.read..];
    }
    Ok(s)
}

// What a turn comes to once its read has answered; None is the input's end.
fn after_read<W: Write, const N: usize>(
    got: io::Result<usize>,
    scan: Scan,
    input: &[u8],
    output: &mut Output<N>,
    writer: &mut W,
) -> Result<Option<Scan>, Failure>
    ensures turn { AfterRead got scan input.now output.new.bytes result }
    ensures written { TurnWrites (scan_text scan (take (count got (length input.now)) input.now)) (W.contents writer.old) (W.contents writer.new) result }
{
    let n = got.map_err(Failure::Read)?.min(input.len());
    if n == 0 {
        return Ok(None);
    }
    let next = take_block(scan, &input[..n], output, writer)?;
    Ok(Some(next))
}

// Reads a block, as much of it as there is, and takes it.
fn take_turn<R: Read, W: Write, const N: usize>(
    scan: Scan,
    input: &mut [u8],
    output: &mut Output<N>,
    reader: &mut R,
    writer: &mut W,
) -> Result<Option<Scan>, Failure>
    ensures turn { Turned scan input.new output.new.bytes result }
    ensures moved { TurnMoves scan input.new (R.remaining reader.old) (R.remaining reader.new) (W.contents writer.old) (W.contents writer.new) result }
{
    let got = reader.read(input);
    after_read(got, scan, input, output, writer)
}

// Writes out the header line.
fn write_header<W: Write, const N: usize>(
    output: &mut Output<N>,
    writer: &mut W,
) -> Result<(), Failure>
    ensures starts { Starts output.new.bytes header_text }
    ensures failed { IfErr result IsFailedWrite }
    ensures written { OnOk result (Appends (W.contents writer.old) (W.contents writer.new) header_text) }
{
    let end = cut_lines::header(&mut output.bytes, 0).unwrap();
    send(&output.bytes[..end], writer)
}

// Writes out a last line without a newline, if one has begun.
fn write_last<W: Write, const N: usize>(
    scan: Scan,
    output: &mut Output<N>,
    writer: &mut W,
) -> Result<(), Failure>
    ensures last { LastWritten scan output.new.bytes result }
    ensures written { OnOk result (Appends (W.contents writer.old) (W.contents writer.new) (last_text scan)) }
{
    let end = cut_lines::finish(scan, &mut output.bytes, 0).unwrap();
    send(&output.bytes[..end], writer)
}

// A proved loop has to end, and nothing says that an input does. So the loop counts its turns down,
// from a number that no run uses up.
fn take_all<R: Read, W: Write, const N: usize>(
    input: &mut [u8],
    output: &mut Output<N>,
    reader: &mut R,
    writer: &mut W,
) -> Result<(), Failure>
    ensures ends { Ends input.new output.new.bytes result }
    ensures moved { RunMoves input.new (R.remaining reader.old) (R.remaining reader.new) (W.contents writer.old) (W.contents writer.new) result }
{
    let mut s = cut_lines::start(FIRST_LINE);
    for _ in 0..u64::MAX {
        match take_turn(s, input, output, reader, writer)? {
            Some(next) => s = next,
            None => return write_last(s, output, writer),
        }
    }
    Err(Failure::OutOfTurns)
}

// The whole run: the header, and a line for each line of the input.
fn cut_all<R: Read, W: Write>(reader: &mut R, writer: &mut W) -> Result<(), Failure>
    ensures { AllWritten (R.remaining reader.old) (R.remaining reader.new) (W.contents writer.old) (W.contents writer.new) result }
{
    let mut input = [0u8; INPUT_BYTES];
    let mut output = Output {
        bytes: [0u8; OUTPUT_BYTES],
    };
    write_header(&mut output, writer)?;
    take_all(&mut input, &mut output, reader, writer)
}

// A failure is told on standard error alone; the status is 0.
fn main(rt: HostRuntime) {
    let mut reader = rt.stdin();
    let mut writer = rt.stdout();
    if cut_all(&mut reader, &mut writer).is_err() {
        let _ = rt.eprintln("cut: reading or writing failed");
    }
}
