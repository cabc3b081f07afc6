//! Spidergons.

use crate::facts::{tell_answers, tell_channels};
use spidergon::Spidergon;

const SIZES: [u16; 5] = [1, 2, 3, 5, 64];

// Up to which size each channel is told.
const SMALL: u16 = 5;

fn tell_size(rt: &HostRuntime, size: u16) -> anyhow::Result<()> {
    let ring = Spidergon::new(size)?;
    let name = format!(in rt.alloc(); "spidergon {size}")?;
    tell_answers(rt, name.as_str(), &ring)?;
    if size <= SMALL {
        tell_channels(rt, name.as_str(), &ring)?;
    }
    Ok(())
}

/// Tells about Spidergons of several sizes, the largest among them.
pub(super) fn tell(rt: &HostRuntime) -> anyhow::Result<()> {
    for size in SIZES {
        tell_size(rt, size)?;
    }
    Ok(())
}
