use crate::expect::expect;
use iom_base::{Cause, Ppn, Size};
use iom_device_dir::{
    CONTEXT_SIZE, Context, FirstStage, GuestRoot, NonLeafEntry, Pscid, SecondStage,
};
use std::process::Abort;

/// The words tc, iohgatp, ta and fsc of a context of address space 1, whose root is in page 59, in Sv39.
static LAWFUL: [u64; 4] = [1, 0, 0x1000, 0x8000_0000_0000_003b];

/// The words of a context of a second stage alone, in Sv39x4: guest 1, whose root begins in page 56.
static SECOND: [u64; 4] = [1, 0x8000_1000_0000_0038, 0x1000, 0];

// The bytes of four words, the least byte of each first.
fn bytes_of(words: [u64; 4]) -> [u8; CONTEXT_SIZE] {
    let mut bytes = [0; CONTEXT_SIZE];
    for place in 0..4 {
        bytes[8 * place..8 * place + 8].copy_from_slice(&words[place].to_le_bytes());
    }
    bytes
}

fn decode(words: [u64; 4]) -> Result<Context, Cause> {
    let bytes = bytes_of(words);
    Context::decode(&bytes)
}

// The words are this context, and it is written so.
fn both_ways(rt: &impl Abort, words: [u64; 4], context: Context) {
    expect(rt, decode(words) == Ok(context));
    expect(rt, context.encode() == bytes_of(words));
}

fn first_stage(rt: &impl Abort, size: Size, root: u64) -> FirstStage {
    let root = Ppn::new(root).expect(rt, "44 bits");
    FirstStage::Tables { size, root }
}

fn second_stage(rt: &impl Abort, size: Size, root: u64) -> SecondStage {
    let root = GuestRoot::new(root).expect(rt, "aligned, 44 bits");
    SecondStage::Tables { size, root }
}

// A context of a device with no stage, whose address space has number 1.
fn bare(rt: &impl Abort) -> Context {
    Context {
        en_ats: false,
        first_stage: FirstStage::Bare,
        second_stage: SecondStage::Bare,
        pscid: Pscid::new(1).expect(rt, "20 bits"),
        gscid: 0,
    }
}

// The same with a first stage alone.
fn first_stage_at(rt: &impl Abort, size: Size, root: u64) -> Context {
    Context {
        first_stage: first_stage(rt, size, root),
        ..bare(rt)
    }
}

// By the figures of section 2.1.3: what a driver writes for its first device, with a root in page 59, and with
// one in page 4,089; the same with ATS; no stage at all.
#[test]
fn contexts_have_their_words(rt: HostRuntime) {
    let context = first_stage_at(&rt, Size::Sv39, 59);
    both_ways(&rt, LAWFUL, context);
    let asks = Context {
        en_ats: true,
        ..context
    };
    both_ways(&rt, [3, 0, 0x1000, 0x8000_0000_0000_003b], asks);
    let other = first_stage_at(&rt, Size::Sv39, 4089);
    both_ways(&rt, [1, 0, 0x1000, 0x8000_0000_0000_0ff9], other);
    both_ways(&rt, [1, 0, 0x1000, 0], bare(&rt));
}

// The widest fields.
#[test]
fn a_widest_context_has_its_words(rt: HostRuntime) {
    let widest = Context {
        pscid: Pscid::new(0xf_ffff).expect(&rt, "20 bits"),
        gscid: 0xffff,
        ..first_stage_at(&rt, Size::Sv39, 0xfff_ffff_ffff)
    };
    let words = [1, 0x0fff_f000_0000_0000, 0xffff_f000, 0x8000_0fff_ffff_ffff];
    both_ways(&rt, words, widest);
}

// A context with a second stage whose root begins in this page.
fn second_stage_at(rt: &impl Abort, size: Size, root: u64, gscid: u16) -> Context {
    Context {
        second_stage: second_stage(rt, size, root),
        gscid,
        ..bare(rt)
    }
}

// By the figure of section 2.1.3.2: a second stage alone, and with the first, whose root is then a guest's page; the
// widest fields.
#[test]
fn second_stages_have_their_words(rt: HostRuntime) {
    both_ways(&rt, SECOND, second_stage_at(&rt, Size::Sv39, 0x38, 1));
    let both = Context {
        first_stage: first_stage(&rt, Size::Sv39, 0),
        ..second_stage_at(&rt, Size::Sv39, 0x30, 7)
    };
    let words = [1, 0x8000_7000_0000_0030, 0x1000, 0x8000_0000_0000_0000];
    both_ways(&rt, words, both);
    let widest = second_stage_at(&rt, Size::Sv39, 0xfff_ffff_fffc, 0xffff);
    both_ways(&rt, [1, 0x8fff_ffff_ffff_fffc, 0x1000, 0], widest);
}

// By the same figures, of four levels: mode 9 is Sv48 in fsc and Sv48x4 in iohgatp. Each stage has its own.
#[test]
fn mode_9_has_four_levels(rt: HostRuntime) {
    let first = first_stage_at(&rt, Size::Sv48, 59);
    both_ways(&rt, [1, 0, 0x1000, 0x9000_0000_0000_003b], first);
    let second = second_stage_at(&rt, Size::Sv48, 0x38, 1);
    both_ways(&rt, [1, 0x9000_1000_0000_0038, 0x1000, 0], second);
    let four_over_three = Context {
        first_stage: first_stage(&rt, Size::Sv48, 0),
        ..second_stage_at(&rt, Size::Sv39, 0x30, 7)
    };
    let words = [1, 0x8000_7000_0000_0030, 0x1000, 0x9000_0000_0000_0000];
    both_ways(&rt, words, four_over_three);
    let three_over_four = Context {
        first_stage: first_stage(&rt, Size::Sv39, 0),
        ..second_stage_at(&rt, Size::Sv48, 0x30, 7)
    };
    let words = [1, 0x9000_7000_0000_0030, 0x1000, 0x8000_0000_0000_0000];
    both_ways(&rt, words, three_over_four);
}

/// Pages at which no root of a second stage begins: it has 16 KiB, and is aligned to that.
static ODD: [u64; 7] = [1, 2, 3, 0x39, 0x3a, 1 << 44, u64::MAX];

#[test]
fn roots_of_second_stages_are_aligned(rt: HostRuntime) {
    for number in ODD.iter() {
        expect(&rt, GuestRoot::new(*number).is_none());
    }
}

fn is_refused(rt: &impl Abort, words: [u64; 4], want: Option<Cause>) {
    expect(rt, decode(words).err() == want);
}

// A root that isn't aligned is misconfigured; where the mode is Bare there is none.
#[test]
fn roots_in_a_context_are_aligned(rt: HostRuntime) {
    is_refused(&rt, [1, 0x8000_1000_0000_0039, 0x1000, 0], MISCONFIGURED);
    is_refused(&rt, [1, 0x8000_1000_0000_003a, 0x1000, 0], MISCONFIGURED);
    is_refused(&rt, [1, 0x8000_1000_0000_003b, 0x1000, 0], MISCONFIGURED);
    is_refused(&rt, [1, 0x9000_1000_0000_003a, 0x1000, 0], MISCONFIGURED);
    is_refused(&rt, [1, 0x1000_0000_003b, 0x1000, 0], None);
}

// Section 2.1.3: where a mode is Bare its PPN means nothing, and it is written as zero.
#[test]
fn roots_of_bare_stages_mean_nothing(rt: HostRuntime) {
    let decoded = decode([1, 0x31, 0x1000, 0x11]);
    expect(&rt, decoded == Ok(bare(&rt)));
}

/// A word of four, bits of it from one up to another, and how a context is refused with one of them turned round.
type Bits = (usize, u32, u32, Option<Cause>);

const NOT_VALID: Option<Cause> = Some(Cause::DirectoryEntryNotValid);

const MISCONFIGURED: Option<Cause> = Some(Cause::DirectoryEntryMisconfigured);

// With each of these bits turned round in a lawful context, the bytes are refused so.
fn turned_in(rt: &impl Abort, lawful: &[u64; 4], bits: &Bits) {
    let (word, low, high, want) = *bits;
    for bit in low..high.saturating_add(1) {
        let mut words = *lawful;
        words[word % 4] ^= 1 << (bit % 64);
        is_refused(rt, words, want);
    }
}

/// Each bit of the four words by itself: V; EN_ATS; the other bits of tc; PPN and GSCID of iohgatp; the reserved
/// bits of ta, and PSCID; PPN of fsc, and its reserved bits; the modes' bits, of which the highest leaves a mode that
/// is offered, Sv39x4 for Bare and Bare for Sv39, and of fsc the lowest too, Sv48 for Sv39.
static FIRST_BITS: [Bits; 14] = [
    (0, 0, 0, NOT_VALID),
    (0, 1, 1, None),
    (0, 2, 63, MISCONFIGURED),
    (1, 0, 59, None),
    (1, 60, 62, MISCONFIGURED),
    (1, 63, 63, None),
    (2, 0, 11, MISCONFIGURED),
    (2, 12, 31, None),
    (2, 32, 63, MISCONFIGURED),
    (3, 0, 43, None),
    (3, 44, 59, MISCONFIGURED),
    (3, 60, 60, None),
    (3, 61, 62, MISCONFIGURED),
    (3, 63, 63, None),
];

#[test]
fn each_bit_by_itself(rt: HostRuntime) {
    for bits in FIRST_BITS.iter() {
        turned_in(&rt, &LAWFUL, bits);
    }
}

/// The bits of iohgatp where its mode is Sv39x4: the two lowest of PPN make its root one that isn't aligned, and the
/// lowest of the mode makes it Sv48x4.
static SECOND_BITS: [Bits; 4] = [
    (1, 0, 1, MISCONFIGURED),
    (1, 2, 60, None),
    (1, 61, 62, MISCONFIGURED),
    (1, 63, 63, None),
];

#[test]
fn each_bit_of_a_second_stage(rt: HostRuntime) {
    for bits in SECOND_BITS.iter() {
        turned_in(&rt, &SECOND, bits);
    }
}

// A context that isn't valid is told as that, whatever else is in it.
#[test]
fn not_valid_is_told_first(rt: HostRuntime) {
    let words = [0xffff_ffff_ffff_fffe, u64::MAX, u64::MAX, u64::MAX];
    is_refused(&rt, words, NOT_VALID);
}

// The entry of a page has this word, both ways.
fn entry_both_ways(rt: &impl Abort, word: u64, page: u64) {
    let next = Ppn::new(page).expect(rt, "44 bits");
    let entry = NonLeafEntry { next };
    expect(rt, NonLeafEntry::decode(word) == Ok(entry));
    expect(rt, entry.encode() == word);
}

// By the figure of section 2.1.2: entries that name pages 4,091 and 4,090, as a driver writes them for the
// widest id; the widest page number.
#[test]
fn entries_have_their_words(rt: HostRuntime) {
    entry_both_ways(&rt, 0x3f_ec01, 4091);
    entry_both_ways(&rt, 0x3f_e801, 4090);
    entry_both_ways(&rt, 0x003f_ffff_ffff_fc01, 0xfff_ffff_ffff);
}

fn is_refused_entry(rt: &impl Abort, word: u64, want: Option<Cause>) {
    expect(rt, NonLeafEntry::decode(word).err() == want);
}

// With each of these bits turned round in a lawful entry, the word is refused so.
fn turned_in_entry(rt: &impl Abort, low: u32, high: u32, want: Option<Cause>) {
    for bit in low..high.saturating_add(1) {
        is_refused_entry(rt, 0x3f_ec01 ^ (1 << (bit % 64)), want);
    }
}

// V, each reserved bit, and each bit of PPN; and an entry that isn't valid, whatever else is in it.
#[test]
fn each_bit_of_an_entry(rt: HostRuntime) {
    turned_in_entry(&rt, 0, 0, NOT_VALID);
    turned_in_entry(&rt, 1, 9, MISCONFIGURED);
    turned_in_entry(&rt, 10, 53, None);
    turned_in_entry(&rt, 54, 63, MISCONFIGURED);
    is_refused_entry(&rt, 0xffff_ffff_ffff_fffe, NOT_VALID);
}
