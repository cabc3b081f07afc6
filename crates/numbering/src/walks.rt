//! The numbering of a release system's items by walks along their needs, depth first.

ghost use Rattle.std.specs.Prelude.{◌≡◌, ℕ, ◌+◌, ◌<◌, ◌≤◌, length, slice_index, MatchOption, MatchBool, cond};
ghost use Rattle.networks.specs.Allowed.{said};
ghost use Rattle.numbering.specs.Deciding.{Decided};
ghost use Rattle.numbering.specs.Walks.{Fixed, LooksAt, Looks, Circle, AllHeld, WalkingAt, Stepped, forced, entered};

use crate::ways::NeedWays;
use crate::{HELD, ReleaseSystem};

// The word of an item to which no walk came.
const FRESH: u32 = HELD - 1;

// The word of an item on the path of the walk that is one of several ways of a need of the item before it, or is the first.
const ENTERED: u32 = HELD - 2;

// The word of an item on the path that is the only way of a need of the item before it.
const FORCED: u32 = HELD - 3;

// What the words say of an item's number, by all its slots or by one of them.
#[derive(Clone, Copy)]
enum Look {
    // the number; by one slot, the least that the slot leaves it
    Number(u32),
    // it is held: all ways of a need are
    Held,
    // this way of a need is not settled; whether the need has no other
    Waits { way: u32, only: bool },
}

// How far the walks have come.
#[derive(Clone, Copy)]
struct Walk {
    // the first item that was not passed yet: no walk began there
    next: usize,
    // how many items are on the path
    depth: usize,
    // 1 more than the greatest number given, or 0
    bound: u32,
}

// Whether a word is a number or `HELD`.
fn is_settled(word: u32) -> bool
    ensures { MatchBool result (Fixed word) (Fixed word → ⊥) }
{
    word < FORCED || word == HELD
}

// What a slot says of the item's number.
fn look_at_slot<S: ReleaseSystem>(
    system: &S,
    allowed: &[u8],
    numbers: &[u32],
    item: u32,
    slot: u16,
) -> Look
    requires { (S.meaning system.now (said allowed.now)).items ≤ length numbers.now }
    ensures { LooksAt (S.meaning system.now (said allowed.now)) (slice_index numbers.now) item slot result }
{
    if !system.need(allowed, item, slot) {
        return Look::Number(0);
    }
    let mut least = HELD;
    for way in NeedWays::new(system, allowed, item, slot) {
        let word = numbers[way as usize];
        if !is_settled(word) {
            let only = system.way(allowed, item, slot, 1).is_none();
            return Look::Waits { way, only };
        }
        least = least.min(word);
    }
    if least == HELD {
        return Look::Held;
    }
    Look::Number(least + 1)
}

// What the slots of an item say of its number.
fn look_at_item<S: ReleaseSystem>(system: &S, allowed: &[u8], numbers: &[u32], item: u32) -> Look
    requires { (S.meaning system.now (said allowed.now)).items ≤ length numbers.now }
    ensures { Looks (S.meaning system.now (said allowed.now)) (slice_index numbers.now) item result }
{
    let mut number: u32 = 0;
    for slot in 0..system.slots() {
        match look_at_slot(system, allowed, numbers, item, slot) {
            Look::Number(least) => number = number.max(least),
            other => return other,
        }
    }
    Look::Number(number)
}

// Where a way stands on the path, if all items behind it are forced.
fn circle(numbers: &[u32], path: &[u32], way: u32) -> Option<usize>
    requires { (p : ℕ) → p < length path.now → slice_index path.now p < length numbers.now }
    ensures { MatchOption result (Unit {0}) (Circle (slice_index numbers.now) path.now way) }
{
    for position in (0..path.len()).rev() {
        let item = path[position];
        if item == way {
            return Some(position);
        }
        if numbers[item as usize] != FORCED {
            return None;
        }
    }
    None
}

// The word of an item that goes onto the path, by whether it is the only way of the need.
fn entered(only: bool) -> u32
    ensures { result ≡ cond only forced entered }
{
    if only { FORCED } else { ENTERED }
}

// Gives `HELD` to the items of a list.
fn hold(numbers: &mut [u32], items: &[u32])
    requires { (p : ℕ) → p < length items.now → slice_index items.now p < length numbers.old }
    ensures { AllHeld (slice_index numbers.old) (slice_index numbers.new) items.now (length items.now) }
{
    for item in items {
        numbers[*item as usize] = HELD;
    }
}

// Looks at the last item of the path. It leaves the path if it is settled. Otherwise a way that it waits for goes onto the path. If
// that stands there already, the items from it on are held, since each has a need whose only way is the next; None if one has not.
fn go_on<S: ReleaseSystem>(
    system: &S,
    allowed: &[u8],
    numbers: &mut [u32],
    path: &mut [u32],
    walk: Walk,
) -> Option<Walk>
    requires words { length numbers.old ≡ (S.meaning system.now (said allowed.now)).items }
    requires list { length path.old ≡ (S.meaning system.now (said allowed.now)).items }
    requires depth { 0 < walk.depth }
    requires walking { WalkingAt (S.meaning system.now (said allowed.now)) numbers.old path.old walk }
    ensures { MatchOption result (Unit {0}) (Stepped (S.meaning system.now (said allowed.now)) numbers.old numbers.new path.new walk) }
{
    let last = walk.depth - 1;
    let item = path[last];
    match look_at_item(system, allowed, numbers, item) {
        Look::Number(number) => {
            numbers[item as usize] = number;
            Some(Walk {
                depth: last,
                bound: walk.bound.max(number + 1),
                ..walk
            })
        }
        Look::Held => {
            numbers[item as usize] = HELD;
            Some(Walk {
                depth: last,
                ..walk
            })
        }
        Look::Waits { way, only } => {
            if numbers[way as usize] != FRESH {
                if !only {
                    return None;
                }
                let from = circle(numbers, &path[..walk.depth], way)?;
                hold(numbers, &path[from..walk.depth]);
                return Some(Walk {
                    depth: from,
                    ..walk
                });
            }
            path[walk.depth] = way;
            numbers[way as usize] = entered(only);
            Some(Walk {
                depth: walk.depth + 1,
                ..walk
            })
        }
    }
}

// Goes on with the walk, or passes the next item, from which a walk begins unless one came to it before.
fn step<S: ReleaseSystem>(
    system: &S,
    allowed: &[u8],
    numbers: &mut [u32],
    path: &mut [u32],
    walk: Walk,
) -> Option<Walk>
    requires words { length numbers.old ≡ (S.meaning system.now (said allowed.now)).items }
    requires list { length path.old ≡ (S.meaning system.now (said allowed.now)).items }
    requires more { (walk.depth ≡ 0) → (walk.next < length path.old) }
    requires walking { WalkingAt (S.meaning system.now (said allowed.now)) numbers.old path.old walk }
    ensures { MatchOption result (Unit {0}) (Stepped (S.meaning system.now (said allowed.now)) numbers.old numbers.new path.new walk) }
{
    if walk.depth > 0 {
        return go_on(system, allowed, numbers, path, walk);
    }
    let next = walk.next + 1;
    if numbers[walk.next] != FRESH {
        return Some(Walk { next, ..walk });
    }
    numbers[walk.next] = ENTERED;
    // it fits: a system has few items
    path[0] = walk.next as u32;
    Some(Walk {
        next,
        depth: 1,
        bound: walk.bound,
    })
}

// Numbers the items by walks. The path is of any words. Answers 1 more than the greatest number given, or 0 where none is; None if a
// walk comes back to its path by a cycle on which some item has several ways, and then nothing is known of the words.
pub(crate) fn number_by_walks<S: ReleaseSystem>(
    system: &S,
    allowed: &[u8],
    numbers: &mut [u32],
    path: &mut [u32],
) -> Option<u32>
    requires words { length numbers.old ≡ (S.meaning system.now (said allowed.now)).items }
    requires list { length path.old ≡ (S.meaning system.now (said allowed.now)).items }
    ensures { MatchOption result (Unit {0}) (Decided (S.meaning system.now (said allowed.now)) (slice_index numbers.new)) }
{
    numbers.fill(FRESH);
    let items = numbers.len();
    let mut walk = Walk {
        next: 0,
        depth: 0,
        bound: 0,
    };
    while walk.depth > 0 || walk.next < items {
        walk = step(system, allowed, numbers, path, walk)?;
    }
    Some(walk.bound)
}
