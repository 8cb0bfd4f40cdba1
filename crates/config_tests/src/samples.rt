//! Changes of the sample configurations, and what is made of them.

use bao_config::read_config;
use bao_wellformed::{CheckError, Checked, Ill, NONE, check};
use sample_configs::TWO_VMS;
use std::alloc::{AllocError, Global};

/// The sample with each change made: an old text, and the text in its place.
pub(crate) fn changed(alloc: Global, changes: &[(&str, &str)]) -> Result<String, AllocError> {
    let mut text = TWO_VMS.to_owned(alloc)?;
    for (old, new) in changes {
        text = text.as_str().replace(alloc, *old, new)?;
    }
    Ok(text)
}

/// The text read and checked, where it can be read.
pub(crate) fn checked(alloc: Global, text: &str) -> Option<Result<Checked, CheckError>> {
    match read_config(alloc, text.as_bytes()) {
        Ok(config) => Some(check(alloc, config)),
        Err(_) => None,
    }
}

/// What a refusal prints of a break.
pub(crate) fn ill_text(alloc: Global, ill: &Ill) -> Result<String, AllocError> {
    let vm = number_text(alloc, ill.vm)?;
    let item = number_text(alloc, ill.item)?;
    format!(in alloc;
        "rule {} vm {vm} item {item} 0x{:x}+0x{:x} 0x{:x}+0x{:x}",
        ill.rule, ill.first.base, ill.first.size, ill.second.base, ill.second.size
    )
}

fn number_text(alloc: Global, number: u8) -> Result<String, AllocError> {
    if number == NONE {
        return "-".to_owned(alloc);
    }
    format!(in alloc; "{number}")
}
