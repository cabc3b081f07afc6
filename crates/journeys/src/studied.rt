//! Drains and judgements that are told one by one, with what each leaves in its buffers.

use crate::buffers::Study::{self, Drain, JudgeLoad, JudgeNumbers};
use crate::buffers::{Buffers, NUMBER};
use crate::shown::Places;
use crate::small::{crossing, exit, in_part, own_way, stairs, way_out};
use networks::Network;
use spidergon::Spidergon;

// A place that no network has.
const FAR: u16 = u16::MAX;

// The greatest number.
const MOST: u32 = u32::MAX;

// What is asked; and how many bytes, which numbers, packets for which places, and how many words are lent.
#[derive(Clone, Copy)]
struct Case(Study, usize, &'static [u32], &'static [Option<u16>], usize);

// Loads that are drained, buffers that are too short, and packets that are not allowed, or stand beyond the channels. Then numbers
// that are judged: small ones, the greatest, some beyond the channels, and buffers that are too short.
const EXIT: &[Case] = &[
    Case(Drain, 6, &[NUMBER; 3], &[Some(1), Some(0), None], 6),
    Case(Drain, 6, &[NUMBER; 3], &[None, None, None], 6),
    Case(
        Drain,
        8,
        &[NUMBER; 5],
        &[Some(1), Some(0), Some(1), None, Some(1)],
        9,
    ),
    Case(Drain, 5, &[NUMBER; 3], &[Some(1), Some(0), None], 6),
    Case(Drain, 6, &[NUMBER; 2], &[Some(1), Some(0), None], 6),
    Case(Drain, 6, &[NUMBER; 3], &[Some(1), Some(0)], 6),
    Case(Drain, 6, &[NUMBER; 3], &[Some(1), Some(0), None], 5),
    Case(Drain, 5, &[NUMBER; 2], &[Some(1), Some(0)], 5),
    Case(Drain, 6, &[NUMBER; 2], &[Some(1), Some(0)], 5),
    Case(Drain, 9, &[NUMBER; 9], &[Some(1), Some(0)], 5),
    Case(Drain, 0, &[], &[], 0),
    Case(Drain, 6, &[NUMBER; 3], &[Some(1), None, Some(0)], 6),
    Case(Drain, 6, &[NUMBER; 3], &[Some(2), None, None], 6),
    Case(Drain, 7, &[NUMBER; 4], &[Some(1), Some(FAR), None, None], 7),
    Case(
        Drain,
        6,
        &[NUMBER; 3],
        &[Some(1), Some(0), None, Some(2)],
        6,
    ),
    Case(JudgeNumbers, 6, &[1, 2, 0], &[], 6),
    Case(JudgeNumbers, 6, &[5, 9, 3], &[], 6),
    Case(JudgeNumbers, 6, &[2, 1, 0], &[], 6),
    Case(JudgeNumbers, 6, &[0, 0, 0], &[], 6),
    Case(JudgeNumbers, 6, &[MOST - 1, MOST, 0], &[], 6),
    Case(JudgeNumbers, 6, &[MOST, MOST, 0], &[], 6),
    Case(JudgeNumbers, 7, &[MOST, MOST, MOST, 0], &[], 7),
    Case(JudgeNumbers, 8, &[1, 2, 0, 0, 0], &[], 8),
    Case(JudgeNumbers, 5, &[1, 2, 0], &[], 6),
    Case(JudgeNumbers, 6, &[1, 2], &[], 6),
    Case(JudgeNumbers, 6, &[1, 2, 0], &[], 5),
    Case(JudgeNumbers, 5, &[1, 2], &[], 5),
    Case(JudgeNumbers, 6, &[], &[], 0),
];

// Loads that are judged: packets beyond the channels, a packet for a place that there is not, and buffers that are too short.
const CROSSING: &[Case] = &[
    Case(JudgeLoad, 4, &[], &[Some(1), Some(0)], 4),
    Case(JudgeLoad, 4, &[], &[Some(1), None], 4),
    Case(JudgeLoad, 4, &[], &[Some(0), Some(0)], 4),
    Case(JudgeLoad, 4, &[], &[Some(2), Some(0)], 4),
    Case(JudgeLoad, 4, &[], &[None, None], 4),
    Case(JudgeLoad, 6, &[], &[Some(1), Some(0), Some(0), None], 6),
    Case(JudgeLoad, 5, &[], &[None, None, Some(1)], 5),
    Case(JudgeLoad, 5, &[], &[Some(1), None, Some(0)], 5),
    Case(JudgeLoad, 4, &[], &[Some(1), Some(FAR)], 4),
    Case(JudgeLoad, 3, &[], &[Some(1), Some(0)], 4),
    Case(JudgeLoad, 4, &[], &[Some(1)], 4),
    Case(JudgeLoad, 4, &[], &[Some(1), Some(0)], 3),
    Case(JudgeLoad, 3, &[], &[Some(1)], 3),
    Case(JudgeLoad, 4, &[], &[], 0),
];

const LOOP: &[Case] = &[Case(Drain, 3, &[NUMBER; 3], &[Some(0); 3], 3)];

// In the last one the pair of channel 0 is not allowed.
const STAIRS: &[Case] = &[
    Case(Drain, 12, &[NUMBER; 6], &[Some(0); 6], 12),
    Case(
        Drain,
        12,
        &[NUMBER; 6],
        &[None, Some(1), Some(1), Some(1), Some(1), Some(1)],
        12,
    ),
    Case(Drain, 12, &[NUMBER; 6], &[Some(1); 6], 12),
];

// Of a blocked network: a blocked load, an empty one, one that is not allowed, and a work area that is too short.
const IN_PART: &[Case] = &[
    Case(Drain, 6, &[NUMBER; 3], &[Some(0), Some(1), None], 6),
    Case(Drain, 8, &[NUMBER; 5], &[None, None, None, Some(0)], 7),
    Case(Drain, 6, &[NUMBER; 3], &[Some(0), Some(2), Some(0)], 6),
    Case(Drain, 6, &[NUMBER; 3], &[Some(0), Some(1), None], 5),
];

const OWN_WAY: &[Case] = &[Case(Drain, 4, &[NUMBER; 2], &[Some(0); 2], 4)];

// The packets of one switch after the other. In the second load the pair of channel 11 is not allowed.
const SWITCHES: &[Option<u16>] = &[
    Some(2),
    Some(1),
    Some(3),
    Some(2),
    Some(1),
    Some(2),
    None,
    Some(3),
    Some(0),
    None,
    None,
    Some(0),
    Some(3),
    None,
    Some(2),
    None,
];

const STRAY: &[Option<u16>] = &[
    Some(2),
    Some(1),
    Some(3),
    Some(2),
    Some(1),
    Some(2),
    None,
    Some(3),
    Some(0),
    None,
    None,
    Some(1),
    Some(3),
    None,
    Some(2),
    None,
];

const RING: &[Case] = &[
    Case(Drain, 64, &[NUMBER; 16], SWITCHES, 64),
    Case(Drain, 64, &[NUMBER; 16], STRAY, 64),
];

// Makes the calls, and tells each with its answer and what it leaves in the buffers.
fn tell_cases<N: Network>(
    rt: &HostRuntime,
    name: &str,
    net: &N,
    cases: &[Case],
) -> anyhow::Result<()> {
    for case in cases {
        let Case(study, bytes, numbers, places, words) = *case;
        let mut buffers = Buffers::new(rt.alloc(), bytes, numbers, places, words)?;
        print!(rt; "{name}, {study}{}: ", Places(buffers.load.as_slice()))?;
        let outcome = buffers.make(net, study);
        println!(rt; "{outcome}; {buffers}")?;
    }
    Ok(())
}

/// Tells the drains and the judgements.
pub(super) fn tell(rt: &HostRuntime) -> anyhow::Result<()> {
    tell_cases(rt, "crossing with an exit", &exit(rt.alloc())?, EXIT)?;
    tell_cases(rt, "crossing", &crossing(rt.alloc())?, CROSSING)?;
    tell_cases(rt, "loop with a way out", &way_out(rt.alloc())?, LOOP)?;
    tell_cases(rt, "stairs", &stairs(rt.alloc())?, STAIRS)?;
    tell_cases(rt, "held in part", &in_part(rt.alloc())?, IN_PART)?;
    tell_cases(rt, "way to the own channel", &own_way(rt.alloc())?, OWN_WAY)?;
    tell_cases(rt, "spidergon 1", &Spidergon::new(1)?, RING)
}
