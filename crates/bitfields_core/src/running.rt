//! A whole call of the program, over three streams.

ghost use Rattle.std.specs.Prelude.{◌≡◌, ◌++◌, ◌∷◌, [], map, string_bytes, IfOk};
ghost use Rattle.std.specs.Fmt.{decimal};
ghost use Rattle.bitstream_io.specs.Word.{Order};
ghost use Rattle.bitfields_core.specs.Call.{bit_order, command_of, order_of, request_of};
ghost use Rattle.bitfields_core.specs.Layout.{layout_of};
ghost use Rattle.bitfields_core.specs.Run.{Calls, Follows, PacksInput, Performs, RepacksInput, Reports, Runs, SizesInput, UnpacksInput};

use crate::fault::{Fault, Reason};
use crate::fault_line::FaultLine;
use crate::input::Input;
use crate::layout::{Layout, parse_layout};
use crate::packing::pack;
use crate::repacking::repack;
use crate::sizing::size;
use crate::unpacking::unpack;
use bitstream_io::{BigEndian, Endianness, LittleEndian, Target};
use std::alloc::{AllocError, Global};

/// The tasks for a layout.
#[derive(Clone, Copy, Drop)]
pub enum Command {
    Pack,
    Unpack,
    Size,
    Repack,
}

/// An order of bits, by its name in the arguments.
#[derive(Clone, Copy, Drop)]
pub enum NamedOrder {
    /// `be`: bit 7 of each byte first.
    Big,
    /// `le`: bit 0 of each byte first.
    Little,
}

/// Runs the program on its arguments, without the program's name. Returns its exit status: 0, or
/// the status of a fault. If there is a fault, its line is printed on `faults` by one request. If
/// the line can't be printed, the status stays the same.
///
/// The input is any `Read`. The output and the stream for faults are any `Write`, or a borrowed
/// target. The output is written and flushed only if the whole layout succeeded. If the status is 2,
/// 3 or 4, nothing was written. If it is 5, something was written only if a request to the output
/// itself failed. After a failed request, no more requests are made to the input or the output. If
/// the status is 0, nothing is printed on `faults`.
pub fn run<R: Input, W: Target, X: Target>(
    alloc: Global,
    words: &[String],
    input: &mut R,
    output: &mut W,
    faults: &mut X,
) -> u8
    ensures { Runs R.stream R.refuses_rest W.stream X.stream
        (request_of (map string_bytes words.now))
        input.old output.old faults.old result input.new output.new faults.new }
{
    match run_command(alloc, words, input, output) {
        Ok(()) => 0,
        Err(fault) => report(fault, faults),
    }
}

/// Prints the line of a fault, and returns its exit status.
pub fn report<X: Target>(fault: Fault, faults: &mut X) -> u8
    ensures status { result ≡ fault.status }
    ensures line { Reports X.stream fault faults.old faults.new }
{
    print_line(fault, faults);
    fault.status
}

/// Prints the line of a fault by one request. Ignores an error of the request.
fn print_line<X: Target>(fault: Fault, faults: &mut X)
    ensures { Reports X.stream fault faults.old faults.new }
{
    let line = FaultLine::of(fault);
    let _ = faults.write_all(line.as_slice());
}

fn run_command<R: Input, W: Target>(
    alloc: Global,
    words: &[String],
    input: &mut R,
    output: &mut W,
) -> Result<(), Fault>
    ensures { Calls R.stream R.refuses_rest W.stream (request_of (map string_bytes words.now))
        input.old output.old result input.new output.new }
{
    let [command, order, text] = words else {
        return Err(Fault::new(0, Reason::BadArguments));
    };
    let Some(command) = parse_command(command.as_str()) else {
        return Err(Fault::new(0, Reason::BadArguments));
    };
    let Some(order) = parse_order(order.as_str()) else {
        return Err(Fault::new(0, Reason::BadArguments));
    };
    with_layout(alloc, command, order, text.as_str(), input, output)
}

fn parse_command(word: &str) -> Option<Command>
    ensures { result ≡ command_of word.now }
{
    match word {
        "pack" => Some(Command::Pack),
        "unpack" => Some(Command::Unpack),
        "size" => Some(Command::Size),
        "repack" => Some(Command::Repack),
        _ => None,
    }
}

fn parse_order(word: &str) -> Option<NamedOrder>
    ensures { result ≡ order_of word.now }
{
    match word {
        "be" => Some(NamedOrder::Big),
        "le" => Some(NamedOrder::Little),
        _ => None,
    }
}

fn with_layout<R: Input, W: Target>(
    alloc: Global,
    command: Command,
    order: NamedOrder,
    text: &str,
    input: &mut R,
    output: &mut W,
) -> Result<(), Fault>
    ensures { Follows R.stream R.refuses_rest W.stream command (bit_order order) (layout_of text.now)
        input.old output.old result input.new output.new }
{
    let layout = parse_layout(alloc, text)?;
    match order {
        NamedOrder::Big => dispatch::<BigEndian, R, W>(alloc, command, &layout, input, output),
        NamedOrder::Little => dispatch::<LittleEndian, R, W>(
            alloc, command, &layout, input, output,
        ),
    }
}

fn dispatch<E: Endianness, R: Input, W: Target>(
    alloc: Global,
    command: Command,
    layout: &Layout,
    input: &mut R,
    output: &mut W,
) -> Result<(), Fault>
    ensures { Performs R.stream R.refuses_rest W.stream command E.order layout.now
        input.old output.old result input.new output.new }
{
    match command {
        Command::Pack => pack_input::<E, R, W>(alloc, layout, input, output),
        Command::Unpack => unpack_input::<E, R, W>(alloc, layout, input, output),
        Command::Size => size_input(alloc, layout, input, output),
        Command::Repack => repack_input::<E, R, W>(alloc, layout, input, output),
    }
}

fn pack_input<E: Endianness, R: Input, W: Target>(
    alloc: Global,
    layout: &Layout,
    input: &mut R,
    output: &mut W,
) -> Result<(), Fault>
    ensures { PacksInput R.stream R.refuses_rest W.stream E.order layout.now
        input.old output.old result input.new output.new }
{
    let bytes = input.read_rest(alloc)?;
    pack::<E, W>(alloc, layout, &bytes, output)?;
    output.flush()?;
    Ok(())
}

fn unpack_input<E: Endianness, R: Input, W: Target>(
    alloc: Global,
    layout: &Layout,
    input: &mut R,
    output: &mut W,
) -> Result<(), Fault>
    ensures { UnpacksInput R.stream W.stream E.order layout.now
        input.old output.old result input.new output.new }
{
    let lines = unpack::<E, R>(alloc, layout, input)?;
    output.write_all(&lines)?;
    output.flush()?;
    Ok(())
}

fn repack_input<E: Endianness, R: Input, W: Target>(
    alloc: Global,
    layout: &Layout,
    input: &mut R,
    output: &mut W,
) -> Result<(), Fault>
    ensures { RepacksInput R.stream W.stream E.order layout.now
        input.old output.old result input.new output.new }
{
    repack::<E, R, W>(alloc, layout, input, output)?;
    output.flush()?;
    Ok(())
}

fn size_input<R: Input, W: Target>(
    alloc: Global,
    layout: &Layout,
    input: &mut R,
    output: &mut W,
) -> Result<(), Fault>
    ensures { (o : Order)
        → SizesInput R.stream R.refuses_rest W.stream o layout.now
        input.old output.old result input.new output.new }
{
    let text = input.read_rest(alloc)?;
    let bits = size(alloc, layout, &text)?;
    let line = number_line(alloc, bits)?;
    output.write_all(line.as_bytes())?;
    output.flush()?;
    Ok(())
}

/// Returns the line of a number: its decimal, and LF.
fn number_line(alloc: Global, number: u64) -> Result<String, AllocError>
    ensures { IfOk result (λ line. string_bytes line ≡ decimal number ++ 10 ∷ []) }
{
    format!(in alloc; "{number}\n")
}
