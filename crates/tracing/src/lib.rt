//! Which pairs of a network packets can reach.

#![tactic(auto)]

ghost use Rattle.std.specs.Prelude.{◌≡◌, ◌/◌, ◌%◌, ◌^◌, ◌<◌, ◌≤◌, true, false, length, slice_set, MatchOption};
ghost use Rattle.networks.specs.Allowed.{Allowed, pairs};
ghost use Rattle.networks.specs.Cleared.{AllZero};
ghost use Rattle.networks.specs.Secrecy.{Secret};
ghost use Rattle.tracing.specs.Queue.{Queued};
ghost use Rattle.tracing.specs.Entries.{NoEntry};
ghost use Rattle.tracing.specs.Traces.{Traced, Traces, Leaves};

use networks::Network;
use networks::faults::{Buffer, StudyFault};
use networks::guard::Cleared;
use networks::pairs::{Pair, Ways, pair_count};

// The pair at a position of a table of all pairs.
fn pair_at(position: usize, places: u16) -> Pair
    requires some { 0 < places }
    requires fits { position / places < 2 ^ 16 }
    ensures channel { result.channel ≡ position / places }
    ensures place { result.place ≡ position % places }
{
    // both fit by what is required, so there is no error that a checked conversion could answer
    let places = usize::from(places);
    Pair {
        channel: (position / places) as u16,
        place: (position % places) as u16,
    }
}

// The lowest place, from a place on, for which packets may be put into the channel. The search writes nothing, so that what it asks of
// the network need not be read anew for each pair.
fn next_entry<N: Network>(net: &N, channel: u16, from: u16) -> Option<u16>
    ensures { let n = N.meaning net.now in MatchOption result
        (NoEntry n channel from n.places)
        (λ place. (from ≤ place) × (place < n.places) × (n.entry channel place ≡ true) × NoEntry n channel from place) }
{
    (from..net.places()).find(|place| {
        let pair = Pair {
            channel,
            place: *place,
        };
        net.entry(pair)
    })
}

// What is marked while a network is traced.
#[derive(Drop)]
struct Marks<'a> {
    // a byte for each pair: 1 if it is marked, 0 if not
    table: &'a mut [u8],
    // the positions of the marked pairs in the order in which they were marked
    queue: &'a mut [u32],
    // how many are queued
    end: usize,
    // how many of these were taken
    head: usize,
    // the queue holds the marked pairs and no other
    ghost queued: { Queued table.now queue.now end head },
}

impl Marks<'_> {
    ghost use Rattle.tracing.specs.Queues.{SameLent, Grown, Taken, Sound, AllMarked, Followed};

    // Marks the pair at a position and queues it, unless it is marked.
    fn mark(&mut self, position: usize)
        requires inside { position < length self.old.table.now }
        ensures marked { self.new.table.now ≡ slice_set self.old.table.now position 1 }
        ensures grown { Grown self.old self.new }
    {
        if self.table[position] == 0 {
            // it fits: a table has fewer than 2^32 bytes
            self.queue[self.end] = position as u32;
            // the byte comes after the word, since each write through a reference has to keep `queued`
            self.table[position] = 1;
            self.end += 1;
        }
    }

    // Takes the first queued pair that was not taken before. Answers its position.
    fn take_next(&mut self) -> Option<usize>
        ensures { Taken self.old self.new result }
    {
        if self.head == self.end {
            return None;
        }
        let position = self.queue[self.head] as usize;
        self.head += 1;
        Some(position)
    }

    // Marks the entries and no other pair.
    fn enter<N: Network>(&mut self, net: &N)
        requires bytes { length self.old.table.now ≡ pairs (N.meaning net.now) }
        requires end { self.old.end ≡ 0 }
        ensures lent { SameLent self.old self.new }
        ensures followed { Followed (N.meaning net.now) self.new }
    {
        let places = net.places();
        for channel in 0..net.channels() {
            let mut from = 0;
            while let Some(place) = next_entry(net, channel, from) {
                self.mark(Pair { channel, place }.position(places));
                from = place + 1;
            }
        }
    }

    // Marks the pairs that the ways of an allowed pair lead to.
    fn follow_ways<N: Network>(&mut self, net: &N, pair: Pair)
        requires sound { Sound (N.meaning net.now) self.old }
        requires allowed { Allowed (N.meaning net.now) pair.channel pair.place }
        requires away { (N.meaning net.now).home pair.channel pair.place ≡ false }
        ensures sound { Sound (N.meaning net.now) self.new }
        ensures grown { Grown self.old self.new }
        ensures ways { AllMarked (N.meaning net.now) self.new ((N.meaning net.now).ways pair.channel pair.place) pair.place }
    {
        let places = net.places();
        for channel in Ways::new(net, pair) {
            self.mark(Pair { channel, ..pair }.position(places));
        }
    }

    // Follows the ways of each marked pair that is not home, in the order of the queue.
    fn follow<N: Network>(&mut self, net: &N)
        requires { Followed (N.meaning net.now) self.old }
        ensures lent { SameLent self.old self.new }
        ensures followed { Followed (N.meaning net.now) self.new }
        ensures all { self.new.head ≡ self.new.end }
    {
        let places = net.places();
        while let Some(position) = self.take_next() {
            let pair = pair_at(position, places);
            if !net.home(pair) {
                self.follow_ways(net, pair);
            }
        }
    }
}

// Marks the allowed pairs and no other. Answers how many there are.
fn mark_allowed<N: Network>(net: &N, table: &mut [u8], queue: &mut [u32]) -> usize
    requires bytes { length table.old ≡ pairs (N.meaning net.now) }
    requires words { length queue.old ≡ pairs (N.meaning net.now) }
    ensures { Traced (N.meaning net.now) table.old table.new result }
{
    table.fill(0);
    let mut marks = Marks {
        table,
        queue,
        end: 0,
        head: 0,
    };
    marks.enter(net);
    marks.follow(net);
    marks.end
}

/// Fills the table of allowed pairs: byte `c * places + d` is 1 if the pair (c, d) is allowed and 0 if not.
/// Answers how many are 1. A table or a work area with less than one item for each pair is refused, and then the table stays
/// as it was. The work area is all 0 at the end.
pub fn trace<N: Network>(net: &N, allowed: &mut [u8], work: &mut [u32]) -> Result<usize, StudyFault>
    ensures traces { Traces (N.meaning net.now) allowed.old (length work.old) result allowed.new }
    ensures cleared { AllZero work.new }
    ensures secret { Secret (Leaves (N.meaning net.now) allowed.old) }
{
    let guard = Cleared { words: work };
    let pairs = pair_count(net);
    Buffer::Allowed.check(pairs, allowed.len())?;
    Buffer::Work.check(pairs, guard.words.len())?;
    let table = &mut allowed[..pairs];
    let queue = &mut guard.words[..pairs];
    Ok(mark_allowed(net, table, queue))
}
