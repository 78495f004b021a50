//! Lines that no file gives yet.

use oas_num::{NotedWriter, Outlet};
use oas_preparing::{Place, Rejection, Report, WideWhy, put_rejection, put_report};
use std::alloc::Global;
use std::process::Abort;

/// Whether the line of a rejection is put and closed, and is this.
fn tells_rejection(alloc: Global, rejection: Rejection, wanted: &str) -> [bool; 3] {
    let mut line: Vec<u8> = Vec::new(alloc);
    let mut err = NotedWriter::new(&mut line);
    let mut told = Outlet::new(&mut err);
    let is_put = put_rejection(&mut told, "chip.oas", rejection).is_ok();
    let is_closed = told.close().is_ok();
    [is_put, is_closed, line.as_slice() == wanted.as_bytes()]
}

#[test]
fn place_in_a_block(rt: HostRuntime) {
    let place = Place::Block {
        block: 41,
        within: 7,
    };
    let why = WideWhy::CblockBorder;
    let wanted = "chip.oas: refused 107 at 41+7\n";
    let told = tells_rejection(rt.alloc(), Rejection { place, why }, wanted);
    assert!(rt; told == [true; 3], "{wanted}");
}

/// Whether the line of a report is put and closed, and is this.
fn tells_report(alloc: Global, report: Report, wanted: &str) -> [bool; 3] {
    let mut line: Vec<u8> = Vec::new(alloc);
    let mut err = NotedWriter::new(&mut line);
    let mut told = Outlet::new(&mut err);
    let is_put = put_report(&mut told, "-", report).is_ok();
    let is_closed = told.close().is_ok();
    [is_put, is_closed, line.as_slice() == wanted.as_bytes()]
}

#[test]
fn largest_numbers(rt: HostRuntime) {
    let report = Report {
        property_names: 0,
        properties: u64::MAX,
        layer_names: 0,
        extension_names: 1,
        extensions: 0,
    };
    let wanted = "-: left out 18446744073709551615 properties, 1 extension name\n";
    assert!(rt;
        tells_report(rt.alloc(), report, wanted) == [true; 3],
        "{wanted}"
    );
}
