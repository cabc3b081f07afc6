//! Answers the files that the arguments name, and writes anew what each says: its text, and the network that it is read as.

#![tactic(auto)]

use answers::answer;
use files::judging::judge;
use files::rewriting::rewrite;
use netfiles::{read_network, write_network};
use records::Record;
use std::alloc::{AllocError, Global};
use std::{env, fs};

// How many records a network is read with at most.
const MAX_RECORDS: usize = 2_048;

// What a byte holds that nothing was written to.
const BLANK: u8 = 7;

// How writing files anew went.
#[derive(Clone, Copy, Default)]
struct Tally {
    written: u32,
    same: u32,
    refused: u32,
}

impl Tally {
    // A file written anew into bytes of its length, which has to be the same, and into one byte less, which has to be refused.
    fn with_written<E: Drop, W: Fn(&mut [u8]) -> Result<usize, E>>(
        self,
        heap: Global,
        file: &[u8],
        write: W,
    ) -> Result<Tally, AllocError>
        requires { W.IsAlwaysCallable write }
    {
        let mut room = vec![in heap; BLANK; file.len()]?;
        let same = write(room.as_mut_slice()).is_ok_and(|end| end == file.len())
            && room.as_slice() == file;
        let mut short = vec![in heap; BLANK; file.len().saturating_sub(1)]?;
        let refused = write(short.as_mut_slice()).is_err()
            && short.iter().all(|byte| *byte == BLANK);
        Ok(Tally {
            written: self.written.saturating_add(1),
            same: self.same.saturating_add(u32::from(same)),
            refused: self.refused.saturating_add(u32::from(refused)),
        })
    }

    // The text of a file, written anew if it is in order.
    fn with_text(self, heap: Global, file: &[u8]) -> Result<Tally, AllocError> {
        if judge(file).is_err() {
            return Ok(self);
        }
        self.with_written(heap, file, |out| rewrite(file, out))
    }

    // The network of a file, read and written if it is accepted.
    fn with_network(self, heap: Global, file: &[u8]) -> Result<Tally, AllocError> {
        let unused = Record::Entry {
            channel: 0,
            place: 0,
        };
        let mut list = vec![in heap; unused; MAX_RECORDS]?;
        let Ok(read) = read_network(heap, file, list.as_mut_slice()) else {
            return Ok(self);
        };
        list.truncate(read.records);
        self.with_written(heap, file, |out| {
            write_network(heap, read.size, list.as_slice(), out)
        })
    }

    fn print(self, rt: &HostRuntime, what: &str) -> anyhow::Result<()> {
        let Tally {
            written,
            same,
            refused,
        } = self;
        println!(rt;
            "{written} {what} written anew: {same} the same, {refused} refused for want of a byte"
        )?;
        Ok(())
    }
}

fn run(rt: &HostRuntime) -> anyhow::Result<()> {
    let mut texts = Tally::default();
    let mut networks = Tally::default();
    for name in env::args(rt)?.skip(1) {
        let file = fs::read(rt, name.as_str())?;
        let text = answer(rt.alloc(), file.as_slice())?;
        print!(rt; "{name}: {text}")?;
        texts = texts.with_text(rt.alloc(), file.as_slice())?;
        networks = networks.with_network(rt.alloc(), file.as_slice())?;
    }
    texts.print(rt, "texts")?;
    networks.print(rt, "networks")
}

fn main(rt: HostRuntime) -> anyhow::Result<()> {
    run(&rt)
}
