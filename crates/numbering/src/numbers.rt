//! The numbering of a release system's items: by walks, and in rounds where those give up.

ghost use Rattle.std.specs.Prelude.{◌≡◌, length, count_by, nat_eq};
ghost use Rattle.networks.specs.Allowed.{said};
ghost use Rattle.networks.specs.Cleared.{AllZero};
ghost use Rattle.networks.specs.Secrecy.{Secret};
ghost use Rattle.numbering.specs.Numbers.{held_number};
ghost use Rattle.numbering.specs.Outcomes.{Outcome, Numbers, Leaves};

use crate::rounds::number_by_rounds;
use crate::walks::number_by_walks;
use crate::{HELD, Numbering, ReleaseSystem};
use networks::faults::{Buffer, StudyFault};
use networks::guard::Cleared;

// How many of the words are `HELD`.
fn count_held(numbers: &[u32]) -> usize
    ensures { result ≡ count_by (λ word. nat_eq word held_number) numbers.now }
{
    numbers.iter().filter(|number| **number == HELD).count()
}

// Numbers the items of a system. The list is of any words.
fn number_items<S: ReleaseSystem>(
    system: &S,
    allowed: &[u8],
    numbers: &mut [u32],
    list: &mut [u32],
) -> Numbering
    requires words { length numbers.old ≡ (S.meaning system.now (said allowed.now)).items }
    requires items { length list.old ≡ (S.meaning system.now (said allowed.now)).items }
    ensures { Outcome (S.meaning system.now (said allowed.now)) numbers.old numbers.new result }
{
    let bound = match number_by_walks(system, allowed, numbers, list) {
        Some(bound) => bound,
        None => number_by_rounds(system, allowed, numbers, list),
    };
    Numbering {
        greatest: bound.saturating_sub(1),
        held: count_held(numbers),
    }
}

/// Numbers the items of a release system: `numbers` holds for each item the number that is defined, which is `HELD` for an item
/// that is held. Answers the greatest number and how many items are held. Numbers or a work area with less than one word for
/// each item are refused, and then the numbers stay as they were. The work area is all 0 at the end.
pub fn number<S: ReleaseSystem>(
    system: &S,
    allowed: &[u8],
    numbers: &mut [u32],
    work: &mut [u32],
) -> Result<Numbering, StudyFault>
    ensures numbers { Numbers (S.meaning system.now (said allowed.now)) numbers.old (length work.old) result numbers.new }
    ensures cleared { AllZero work.new }
    ensures secret { Secret (Leaves (S.meaning system.now (said allowed.now)) numbers.old) }
{
    let guard = Cleared { words: work };
    let items = system.items() as usize;
    Buffer::Numbers.check(items, numbers.len())?;
    Buffer::Work.check(items, guard.words.len())?;
    let words = &mut numbers[..items];
    let list = &mut guard.words[..items];
    Ok(number_items(system, allowed, words, list))
}
