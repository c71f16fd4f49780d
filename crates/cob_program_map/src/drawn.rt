//! The record that is shown, and what it becomes.

ghost use Rattle.std.specs.Prelude.{◌<◌, IfErr, IfOk, IfSome};
ghost use Rattle.cob_convert.specs.Run.{IsConverted};
ghost use Rattle.cob_program_map.specs.Showing.{IsNotShown};
ghost use Rattle.cob_program_map.specs.Ends.{MayNotMap};

use crate::ends::Unmapped;
use crate::shown::{NotShown, Shown, shown_record};
use cob_convert_record::Conversion;
use cob_program_faults::{CommandFault, FileName, opened};
use cob_program_line::MapLine;
use cob_records::{Source, open_source};
use cob_report_map::{Converted, Record};
use std::alloc::Global;
use std::io::Input;
use std::rt::Files;

/// A record and what it becomes, as they are drawn.
pub(crate) fn converted_of(shown: &Shown) -> Converted<'_> {
    Converted {
        number: shown.number,
        input: Record {
            spots: shown.from.spots(),
            bytes: shown.input.as_slice(),
        },
        output: Record {
            spots: shown.to.spots(),
            bytes: shown.output.as_slice(),
        },
    }
}

/// Why there is no page where the record with this number is not shown.
fn unmapped(number: u64, why: NotShown) -> Unmapped
    requires { IsNotShown number why }
    ensures { MayNotMap result }
{
    match why {
        NotShown::Memory => Unmapped::Fault(CommandFault::Memory),
        NotShown::Fewer(there) => Unmapped::NoRecord { number, there },
        NotShown::Stops(fault) => Unmapped::Fault(CommandFault::Stopped(fault)),
    }
}

/// The record with this number of a source, and what it becomes.
fn shown_in<S: Source>(
    alloc: Global,
    conversion: &Conversion,
    number: u64,
    source: &mut S,
) -> Result<Shown, Unmapped>
    requires { 0 < number }
    ensures shows { IfOk result
        (λ s. IsConverted conversion.now (s.input.items, s.output.items)) }
    ensures may { IfErr result MayNotMap }
{
    match shown_record(alloc, conversion, number, source) {
        Ok(shown) => Ok(shown),
        Err(why) => Err(unmapped(number, why)),
    }
}

/// The record with this number of a file, and what it becomes.
fn shown_of<R: AllocGlobal + Files + Input>(
    rt: &R,
    conversion: &Conversion,
    file: &str,
    number: u64,
) -> Result<Shown, Unmapped>
    requires { 0 < number }
    ensures shows { IfOk result
        (λ s. IsConverted conversion.now (s.input.items, s.output.items)) }
    ensures may { IfErr result MayNotMap }
{
    match opened(open_source(rt, file), FileName::In) {
        Ok(mut source) => shown_in(rt.alloc(), conversion, number, &mut source),
        Err(fault) => Err(Unmapped::Fault(fault)),
    }
}

/// The record that the line names, where it names a file, and what it becomes.
///
/// # Errors
///
/// A file that is not opened, a record that is not there or that stops, want of memory.
pub(crate) fn record_shown<R: AllocGlobal + Files + Input>(
    rt: &R,
    conversion: &Conversion,
    line: &MapLine<'_>,
) -> Result<Option<Shown>, Unmapped>
    requires { 0 < line.now.record }
    ensures shows { IfOk result (λ shown. IfSome shown
        (λ s. IsConverted conversion.now (s.input.items, s.output.items))) }
    ensures may { IfErr result MayNotMap }
{
    match line.input {
        Some(file) => match shown_of(rt, conversion, file, line.record) {
            Ok(shown) => Ok(Some(shown)),
            Err(why) => Err(why),
        },
        None => Ok(None),
    }
}
