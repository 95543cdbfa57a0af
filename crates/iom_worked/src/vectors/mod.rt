// Translations that independent implementations confirmed, an emulated processor's page walk and an emulated RISC-V IOMMU,
// and how many agree: with the walks of `iom_stage_walk`, from the root tables that the device's context names, which
// `iom_device_dir::locate` finds; and with `Iommu::request` of `iom_iommu`, where the device asks for one byte, and a fault
// is told by its record.
//
// `data/vectors/first.tsv` is about first-stage tables, `directory.tsv` about directories and contexts, `second.tsv` and
// `both.tsv` about a second stage and both, and so is `random.tsv`, with tables drawn at random. The files whose names end in
// `48` are the same with tables of four levels, through both stages of each mix of sizes. They have a case a line:
// group, name, ddtp, device id, address, `r` or `w`, the words of memory (`address=value`, hexadecimal; all other bytes of
// its 2,048 frames are zero), the wanted answer, and who confirmed it. The first line names the columns.
mod case;
mod requests;
mod walks;

use crate::vectors::case::{Answer, is_wanted, parse, store_words};
use iom_phys_mem::Memory;
use std::alloc::Global;
use std::fs;

/// What answers the cases of a file.
#[derive(Clone, Copy)]
enum By {
    Walk,
    Request,
}

/// How cases went.
#[derive(Clone, Copy)]
struct Tally {
    agreed: u32,
    differed: u32,
    unread: u32,
}

impl Tally {
    fn new() -> Tally {
        Tally {
            agreed: 0,
            differed: 0,
            unread: 0,
        }
    }

    fn count(&mut self, agrees: Option<bool>) {
        let counter = match agrees {
            Some(true) => &mut self.agreed,
            Some(false) => &mut self.differed,
            None => &mut self.unread,
        };
        *counter = counter.saturating_add(1);
    }

    fn add(&mut self, more: Tally) {
        self.agreed = self.agreed.saturating_add(more.agreed);
        self.differed = self.differed.saturating_add(more.differed);
        self.unread = self.unread.saturating_add(more.unread);
    }
}

/// Whether the case of the line agrees; None where the program can't read it. Leaves the tables' words zero.
fn run(alloc: Global, memory: &mut Memory, line: &str, by: By) -> Option<bool> {
    let case = parse(line)?;
    store_words(memory, case, false)?;
    let answer: Option<Answer> = match by {
        By::Walk => Some(walks::walked(memory, case)),
        By::Request => requests::requested(alloc, memory, case),
    };
    store_words(memory, case, true)?;
    Some(is_wanted(answer?, case))
}

/// How the cases of the lines go, but for the first line.
fn tally_of(alloc: Global, memory: &mut Memory, text: &str, by: By) -> Tally {
    let mut tally = Tally::new();
    for line in text.lines().skip(1) {
        tally.count(run(alloc, memory, line, by));
    }
    tally
}

/// Prints how they went.
fn print(rt: &HostRuntime, name: &str, by: &str, tally: Tally) -> anyhow::Result<()> {
    println!(rt;
        "{name}, {by}: {} agree, {} differ, {} not read",
        tally.agreed, tally.differed, tally.unread
    )?;
    Ok(())
}

/// Runs the cases of each file in both ways, and prints how many agree.
pub(crate) fn tell(rt: &HostRuntime) -> anyhow::Result<()> {
    let mut memory = Memory::new(rt.alloc(), 2048)?;
    for (by, words) in [(By::Walk, "by walks"), (By::Request, "by requests")] {
        let mut all = Tally::new();
        for (name, file) in [
            ("first stage", "vectors/first.tsv"),
            ("directory", "vectors/directory.tsv"),
            ("second stage", "vectors/second.tsv"),
            ("both stages", "vectors/both.tsv"),
            ("random", "vectors/random.tsv"),
            ("first stage, Sv48", "vectors/first48.tsv"),
            ("directory, Sv48", "vectors/directory48.tsv"),
            ("second stage, Sv48x4", "vectors/second48.tsv"),
            ("both stages, both sizes", "vectors/both48.tsv"),
            ("random, both sizes", "vectors/random48.tsv"),
        ] {
            let text = fs::read_to_string(rt, file)?;
            let tally = tally_of(rt.alloc(), &mut memory, text.as_str(), by);
            print(rt, name, words, tally)?;
            all.add(tally);
        }
        print(rt, "all", words, all)?;
    }
    Ok(())
}
