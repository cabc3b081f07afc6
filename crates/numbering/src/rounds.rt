//! The numbering of a release system's items, round by round.

ghost use Rattle.std.specs.Prelude.{◌≡◌, ◌+◌, ◌-◌, ◌<◌, ◌≤◌, ◌⊎◌, suc, length, slice_index, MatchBool, ℕ};
ghost use Rattle.networks.specs.Allowed.{said};
ghost use Rattle.numbering.specs.Deciding.{Decided};
ghost use Rattle.numbering.specs.Numbers.{held_number};
ghost use Rattle.numbering.specs.Rounds.{Met, Unmet, Passed, Done, Open, Midway, Listing, Finished, Settled, Closed};
ghost use Rattle.numbering.specs.Systems.{most_items, most_slots};

use crate::ways::NeedWays;
use crate::{HELD, ReleaseSystem};

// Whether the slot of the item is empty, or a way of its need was numbered before the round.
fn is_met<S: ReleaseSystem>(
    system: &S,
    allowed: &[u8],
    numbers: &[u32],
    item: u32,
    slot: u16,
    round: u32,
) -> bool
    requires { (S.meaning system.now (said allowed.now)).items ≤ length numbers.now }
    ensures { MatchBool result (Met (S.meaning system.now (said allowed.now)) (slice_index numbers.now) item round slot) (Unmet (S.meaning system.now (said allowed.now)) (slice_index numbers.now) item round slot) }
{
    if !system.need(allowed, item, slot) {
        return true;
    }
    for way in NeedWays::new(system, allowed, item, slot) {
        if numbers[way as usize] < round {
            return true;
        }
    }
    false
}

// The first slot of the item, from a slot on, that is not met; the count of slots if there is none.
fn first_unmet<S: ReleaseSystem>(
    system: &S,
    allowed: &[u8],
    numbers: &[u32],
    item: u32,
    from: u16,
    round: u32,
) -> u16
    requires items { (S.meaning system.now (said allowed.now)).items ≤ length numbers.now }
    requires slots { from ≤ (S.meaning system.now (said allowed.now)).slots }
    ensures { Passed (S.meaning system.now (said allowed.now)) (slice_index numbers.now) item round from result }
{
    let slots = system.slots();
    (from..slots)
        .find(|slot| !is_met(system, allowed, numbers, item, *slot, round))
        .unwrap_or(slots)
}

// How many slots an open item with such a word has passed: the word is `HELD` less their count. So one word an item is enough,
// and it is above every number.
fn passed_slots(word: u32) -> u16
    requires { held_number ≤ word + most_slots }
    ensures { result ≡ held_number - word }
{
    // it fits: an item has few slots
    (HELD - word) as u16
}

// The word of an open item that has passed so many slots.
fn open_word(passed: u16) -> u32
    ensures { result ≡ held_number - passed }
{
    HELD - u32::from(passed)
}

// Passes the slots of an open item that are met in the round. If these are all that are left, the round is the item's number.
// Answers whether it is.
fn settle<S: ReleaseSystem>(
    system: &S,
    allowed: &[u8],
    numbers: &mut [u32],
    item: u32,
    round: u32,
) -> bool
    requires words { length numbers.old ≡ (S.meaning system.now (said allowed.now)).items }
    requires open { Open (S.meaning system.now (said allowed.now)) (slice_index numbers.old) round item }
    requires early { round ≤ most_items }
    ensures { Settled (S.meaning system.now (said allowed.now)) (slice_index numbers.old) (slice_index numbers.new) round item result }
{
    let from = passed_slots(numbers[item as usize]);
    let slot = first_unmet(system, allowed, numbers, item, from, round);
    if slot == system.slots() {
        numbers[item as usize] = round;
        return true;
    }
    numbers[item as usize] = open_word(slot);
    false
}

// Looks in a round at each of the open items, which are the first `end` of the list. Those that stay open come to its front. Answers
// how many they are.
fn run_round<S: ReleaseSystem>(
    system: &S,
    allowed: &[u8],
    numbers: &mut [u32],
    list: &mut [u32],
    end: usize,
    round: u32,
) -> usize
    requires words { length numbers.old ≡ (S.meaning system.now (said allowed.now)).items }
    requires room { end ≤ length list.old }
    requires early { round ≤ most_items }
    requires listing { Listing (S.meaning system.now (said allowed.now)) (slice_index numbers.old) list.old round end }
    ensures { Midway (S.meaning system.now (said allowed.now)) (slice_index numbers.new) list.new round result end end }
{
    let mut kept = 0;
    for position in 0..end {
        let item = list[position];
        if !settle(system, allowed, numbers, item, round) {
            list[kept] = item;
            kept += 1;
        }
    }
    kept
}

// Runs round after round, until one numbers no item. Answers how many came before it.
fn run_rounds<S: ReleaseSystem>(
    system: &S,
    allowed: &[u8],
    numbers: &mut [u32],
    list: &mut [u32],
) -> u32
    requires words { length numbers.old ≡ (S.meaning system.now (said allowed.now)).items }
    requires items { length list.old ≡ (S.meaning system.now (said allowed.now)).items }
    requires listing { Listing (S.meaning system.now (said allowed.now)) (slice_index numbers.old) list.old 0 (S.meaning system.now (said allowed.now)).items }
    ensures { Finished (S.meaning system.now (said allowed.now)) (slice_index numbers.new) result }
{
    let mut end = list.len();
    let mut round = 0;
    loop {
        let kept = run_round(system, allowed, numbers, list, end, round);
        if kept == end {
            return round;
        }
        end = kept;
        round += 1;
    }
}

// Gives `HELD` to those that were not numbered in one of so many rounds.
fn close(numbers: &mut [u32], rounds: u32)
    ensures { (i : ℕ) → i < length numbers.old → Closed rounds numbers.old numbers.new i }
{
    for item in 0..numbers.len() {
        if numbers[item] >= rounds {
            numbers[item] = HELD;
        }
    }
}

// Opens all items: none of them has a number or a slot that was passed, and the list has them in rising order.
fn open_all(numbers: &mut [u32], list: &mut [u32])
    requires words { length numbers.old ≡ length list.old }
    requires few { length list.old ≤ most_items }
    ensures { (i : ℕ) → i < length list.old → (slice_index numbers.new i ≡ held_number) × (slice_index list.new i ≡ i) }
{
    for item in 0..list.len() {
        numbers[item] = HELD;
        // it fits: a system has few items
        list[item] = item as u32;
    }
}

// Numbers the items in rounds. The list is of any words. Answers 1 more than the greatest number given, or 0 where none is.
pub(crate) fn number_by_rounds<S: ReleaseSystem>(
    system: &S,
    allowed: &[u8],
    numbers: &mut [u32],
    list: &mut [u32],
) -> u32
    requires words { length numbers.old ≡ (S.meaning system.now (said allowed.now)).items }
    requires items { length list.old ≡ (S.meaning system.now (said allowed.now)).items }
    ensures { Decided (S.meaning system.now (said allowed.now)) (slice_index numbers.new) result }
{
    open_all(numbers, list);
    let rounds = run_rounds(system, allowed, numbers, list);
    close(numbers, rounds);
    rounds
}
