//! Checking exact values.
ghost use Rattle.std.specs.Prelude.{◌≡◌, ◌≤◌};
ghost use Rattle.std.specs.Io.KnownBytes.{Appends};
ghost use Rattle.gw_engine.specs.Checking.{report_line, Checks, ReportsBy};

use crate::stop::{Stop, end};
use gw_console::{Status, write_whole};
use std::alloc::Global;
use std::io::Write;
use vectors::{ENTRIES, Report, check_all};

/// Computes the exact values of [`check_all`], compares each with what it should be, prints how many
/// passed, failed and could not be looked at because of an allocation failure, and answers the exit status.
///
/// The status is 0 where all passed and all of the output is written, and else 1. Where a write fails it is
/// a beginning of the line that was written, and nothing after it; on allocation failure `no memory` is
/// printed in its place.
pub fn check<W: Write>(alloc: Global, writer: &mut W) -> u8
    ensures checks { Checks ENTRIES result (W.contents writer.old) (W.contents writer.new) }
    ensures code { result ≤ 1 }
    ensures done { result ≡ 0 →
        Appends (W.contents writer.old) (W.contents writer.new) (report_line ENTRIES 0 0) }
{
    let report = check_all(alloc);
    let status = end(print_report(alloc, report, writer), writer);
    if report.failed == 0 && report.unread == 0 {
        status.code()
    } else {
        Status::Refused.code()
    }
}

fn print_report<W: Write>(alloc: Global, report: Report, writer: &mut W) -> Result<(), Stop>
    ensures { ReportsBy (report_line report.passed report.failed report.unread) result
        (W.contents writer.old) (W.contents writer.new) }
{
    let Report {
        passed,
        failed,
        unread,
        ..
    } = report;
    let line = format!(in alloc; "passed {passed} failed {failed} unread {unread}\n")?;
    write_whole(writer, line.as_bytes())?;
    Ok(())
}
