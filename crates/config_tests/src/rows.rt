//! What a row of a table of broken samples says, and how it is tried.

use crate::edited::edited;
use bao_config::{ConfigError, Spot, read_config};
use sample_configs::TWO_VMS;
use std::alloc::{AllocError, Global};
use std::process::Abort;

/// What a row shows, the text of the sample, the text in its place, the fault's row and places, and its value where it
/// has one.
pub(crate) type Row = (
    &'static str,
    &'static str,
    &'static str,
    [u8; 4],
    Option<i64>,
);

/// The fault that the reader tells of the text, if any.
fn fault_of(alloc: Global, text: &str) -> Option<ConfigError> {
    read_config(alloc, text.as_bytes()).err()
}

fn check_row(rt: &impl Abort, alloc: Global, row: &Row) -> Result<(), AllocError> {
    let (shows, old, new, [row, i, j, k], value) = *row;
    let text = edited(alloc, TWO_VMS, old, new)?;
    let spot = Spot { row, i, j, k };
    let fault = match value {
        Some(value) => ConfigError::BadValue { spot, value },
        None => ConfigError::BadShape { spot },
    };
    assert_eq!(rt; fault_of(alloc, text.as_str()), Some(fault), "{shows}");
    Ok(())
}

pub(crate) fn check_rows(rt: &impl Abort, alloc: Global, rows: &[Row]) -> Result<(), AllocError> {
    for row in rows {
        check_row(rt, alloc, row)?;
    }
    Ok(())
}
