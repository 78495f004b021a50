//! The rows that rule out wrong readings of the rules, through `canon` and `show`, over a slice.

use super::limits_table::UNDER_LIMITS;
use super::modal_table::MODAL;
use super::readings_table::{LISTED, READINGS, WHOLE};
use super::rows::{BODY, WHOLE_FILE, expect_rows};
use super::runs::expect_runs;
use std::test::Fail;

#[test]
fn modal_variables(rt: HostRuntime) -> Result<(), Fail> {
    expect_rows(&rt, rt.alloc(), BODY, MODAL, 62)
}

#[test]
fn other_readings(rt: HostRuntime) -> Result<(), Fail> {
    expect_rows(&rt, rt.alloc(), BODY, READINGS, 87)
}

#[test]
fn readings_of_whole_files(rt: HostRuntime) -> Result<(), Fail> {
    expect_rows(&rt, rt.alloc(), WHOLE_FILE, WHOLE, 4)
}

#[test]
fn listings(rt: HostRuntime) -> Result<(), Fail> {
    expect_runs(&rt, rt.alloc(), LISTED)
}

#[test]
fn readings_under_limits(rt: HostRuntime) -> Result<(), Fail> {
    expect_rows(&rt, rt.alloc(), BODY, UNDER_LIMITS, 59)
}
