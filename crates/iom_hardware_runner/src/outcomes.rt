// What hardware and devices answer, in the words that a world has for it: the texts are those of `iom_script`'s outcomes.
// An outcome itself has room for a page, which a line would pay for. So the words are written one by one, and bytes from
// where they stand.
ghost use Rattle.std.specs.Prelude.{◌≡◌, ◌≤◌, ◌++◌, length};
ghost use Rattle.std.specs.Fmt.{decimal};
ghost use Rattle.iom_base.specs.Refusals as refusals;
ghost use Rattle.iom_base.specs.Rights.{letters};
ghost use Rattle.iom_machine.specs.declared.outcome.BlockStep.TheVariants as steps;
ghost use Rattle.iom_script.specs.Lines as lines;
ghost use Rattle.iom_script.specs.Lines.{answer_text, step_text};

use iom_ats_cache::Taken;
use iom_base::{AccessKind, Refusal, Rights};
use iom_board::{Board, CacheReply, Delivered, NoPlace};
use iom_command_queue::Command;
use iom_fabric::{Repeat, Translation};
use iom_hardware::Stepped;
use iom_inflight::MadeAt;
use iom_iommu::{Begun, Fetched, Load, Reply};
use iom_script::{BUFFER_SIZE, LineBuffer};
use iom_stepped_hardware::StepOutcome;
use iom_virtqueue::ChainFault;

/// Writes the words, in place of what stood there.
pub(crate) fn put_words(out: &mut LineBuffer, words: &[u8])
    requires { length words.now ≤ 40 }
    ensures { out.new ≡ words.now }
{
    out.clear();
    out.append(words);
}

/// Writes words and a number.
fn put_numbered(out: &mut LineBuffer, words: &[u8], number: u64)
    requires { length words.now ≤ 40 }
    ensures text { out.new ≡ words.now ++ decimal number }
    ensures short { length out.new ≤ 60 }
{
    put_words(out, words);
    out.append_decimal(number);
}

/// The refusal's name.
fn refusal_name(why: Refusal) -> &'static [u8]
    ensures text { result.now ≡ refusals.name_of why }
    ensures short { length result.now ≤ 15 }
{
    why.name().as_bytes()
}

/// Writes why something was refused.
pub(crate) fn put_refusal(out: &mut LineBuffer, why: Refusal)
    ensures { out.new ≡ refusals.text_of why }
{
    put_numbered(out, b"refused ", u64::from(why.number()));
    out.append(b" ");
    out.append(refusal_name(why));
}

/// Writes that a call is done, or refused.
pub(crate) fn put_done(out: &mut LineBuffer, answer: Result<(), Refusal>) {
    match answer {
        Ok(()) => put_words(out, b"ok"),
        Err(why) => put_refusal(out, why),
    }
}

fn put_reply(out: &mut LineBuffer, reply: Reply) {
    match reply {
        Reply::Accepted(number) => put_numbered(out, b"accepted ", number),
        Reply::Busy => put_words(out, b"busy"),
        Reply::BadSpan => put_words(out, b"badspan"),
        Reply::Fault(cause) => put_numbered(out, b"fault ", u64::from(cause.code())),
    }
}

/// Writes what the IOMMU answers a request.
pub(crate) fn put_replied(out: &mut LineBuffer, answer: Result<Reply, Refusal>) {
    match answer {
        Ok(reply) => put_reply(out, reply),
        Err(why) => put_refusal(out, why),
    }
}

/// Writes what becomes of a request that begins, where a walk takes several events.
pub(crate) fn put_begun(out: &mut LineBuffer, answer: Result<Begun, Refusal>) {
    match answer {
        Ok(Begun::Answered(reply)) => put_reply(out, reply),
        Ok(Begun::Walking) => put_words(out, b"walking"),
        Ok(Begun::Occupied) => put_words(out, b"occupied"),
        Err(why) => put_refusal(out, why),
    }
}

/// Writes what becomes of a request at the next load of its walk.
pub(crate) fn put_walk_load(out: &mut LineBuffer, answer: Result<Load, Refusal>) {
    match answer {
        Ok(Load::Nothing) => put_words(out, b"none"),
        Ok(Load::Loaded) => put_words(out, b"loaded"),
        Ok(Load::Ended(reply)) => put_reply(out, reply),
        Err(why) => put_refusal(out, why),
    }
}

/// Writes what comes of an access through a device's own cache.
pub(crate) fn put_cache(out: &mut LineBuffer, answer: Result<CacheReply, Refusal>) {
    match answer {
        Ok(CacheReply::Miss) => put_words(out, b"miss"),
        Ok(CacheReply::Replied(reply)) => put_reply(out, reply),
        Err(why) => put_refusal(out, why),
    }
}

/// Writes what becomes of a message that a device sends.
pub(crate) fn put_sent(out: &mut LineBuffer, answer: Result<bool, Refusal>) {
    match answer {
        Ok(true) => put_words(out, b"sent"),
        Ok(false) => put_words(out, b"lost"),
        Err(why) => put_refusal(out, why),
    }
}

fn put_did(out: &mut LineBuffer, command: Command) {
    match command {
        Command::IotinvalVma { .. } => put_words(out, b"did iotinval.vma"),
        Command::IotinvalGvma { .. } => put_words(out, b"did iotinval.gvma"),
        Command::IofenceC { .. } => put_words(out, b"did iofence.c"),
        Command::IodirInvalDdt { .. } => put_words(out, b"did iodir.inval_ddt"),
        Command::AtsInval { .. } => put_words(out, b"did ats.inval"),
    }
}

/// Writes what a fetch did.
pub(crate) fn put_fetched(out: &mut LineBuffer, fetched: Fetched) {
    match fetched {
        Fetched::Did(command) => put_did(out, command),
        Fetched::Waiting => put_words(out, b"waiting"),
        Fetched::Empty => put_words(out, b"empty"),
        Fetched::Stopped => put_words(out, b"stopped"),
    }
}

/// The letters of a right.
fn letters_of(rights: Rights) -> &'static [u8]
    ensures text { result.now ≡ letters rights }
    ensures short { length result.now ≤ 2 }
{
    if rights.allows(AccessKind::Write) {
        b"rw"
    } else {
        b"r"
    }
}

fn put_translation(out: &mut LineBuffer, reply: Translation)
    ensures { out.new ≡ answer_text reply }
{
    match reply {
        Translation::Page { frame, rights } => {
            put_numbered(out, b"answer ", u64::from(frame));
            out.append(b" ");
            out.append(letters_of(rights));
        }
        Translation::Refused(cause) => put_numbered(out, b"answer fault ", u64::from(cause.code())),
    }
}

fn put_taken(out: &mut LineBuffer, taken: Taken) {
    match taken {
        Taken::Kept => put_words(out, b"kept"),
        Taken::Stale => put_words(out, b"stale"),
        Taken::Refused => put_words(out, b"refusal"),
    }
}

/// Writes what comes of a message that arrives.
pub(crate) fn put_delivered(out: &mut LineBuffer, delivered: Delivered) {
    match delivered {
        Delivered::NoMessage => put_words(out, b"none"),
        Delivered::Answered(reply) => put_translation(out, reply),
        Delivered::Taken(taken) => put_taken(out, taken),
        Delivered::Ignored => put_words(out, b"ignored"),
        Delivered::Invalidated(serial) => put_numbered(out, b"invalidated ", serial),
        Delivered::Closed(serial) => put_numbered(out, b"closed ", serial),
        Delivered::NotClosed(serial) => put_numbered(out, b"ignored ", serial),
    }
}

/// Writes what becomes of a message that is repeated.
pub(crate) fn put_repeated(out: &mut LineBuffer, repeated: Repeat) {
    match repeated {
        Repeat::Repeated => put_words(out, b"repeated"),
        Repeat::Lost => put_words(out, b"lost"),
        Repeat::Nothing => put_words(out, b"none"),
    }
}

/// Writes why bytes have no place.
fn put_no_place(out: &mut LineBuffer, why: NoPlace) {
    match why {
        NoPlace::BadSpan => put_words(out, b"badspan"),
        NoPlace::OutsideMemory => put_refusal(out, Refusal::FrameOutOfRange),
    }
}

/// Writes what comes of a store of the processor.
pub(crate) fn put_stored(out: &mut LineBuffer, answer: Result<(), NoPlace>) {
    match answer {
        Ok(()) => put_words(out, b"ok"),
        Err(why) => put_no_place(out, why),
    }
}

/// A hexadecimal digit.
fn digit_of(number: u8) -> u8 {
    b"0123456789abcdef"[usize::from(number % 16)]
}

/// Appends two hexadecimal digits for each byte. There is room for those of a page, and it is looked for all the same.
fn append_hex(out: &mut LineBuffer, bytes: &[u8]) {
    for byte in bytes {
        if out.as_slice().len() + 2 <= BUFFER_SIZE {
            out.append(&[digit_of(*byte / 16), digit_of(*byte)]);
        }
    }
}

/// Writes a word, and the bytes that stand at the address; or why none do.
fn put_standing(out: &mut LineBuffer, word: &[u8], hardware: &Board, address: u64, len: u64)
    requires { length word.now ≤ 40 }
{
    match hardware.load(address, len) {
        Ok(bytes) => {
            put_words(out, word);
            append_hex(out, bytes);
        }
        Err(why) => put_no_place(out, why),
    }
}

/// Writes what the processor loads.
pub(crate) fn put_loaded(out: &mut LineBuffer, hardware: &Board, address: u64, len: u64) {
    put_standing(out, b"bytes ", hardware, address, len);
}

/// Writes the access that was made, with the bytes of a read, which stand where it was made.
fn put_made(out: &mut LineBuffer, hardware: &Board, made: MadeAt) {
    match made.kind {
        AccessKind::Write => put_numbered(out, b"wrote ", u64::from(made.len)),
        AccessKind::Read => {
            let address = u64::from(made.frame) * 4096 + u64::from(made.offset);
            put_standing(out, b"read ", hardware, address, u64::from(made.len));
        }
    }
}

/// Writes what came of a commit.
pub(crate) fn put_committed(
    out: &mut LineBuffer,
    hardware: &Board,
    answer: Result<Option<MadeAt>, Refusal>,
) {
    match answer {
        Ok(Some(made)) => put_made(out, hardware, made),
        Ok(None) => put_words(out, b"none"),
        Err(why) => put_refusal(out, why),
    }
}

/// The name of a fault in a chain of descriptors.
fn chain_name(fault: ChainFault) -> &'static [u8]
    ensures text { result.now ≡ lines.chain_name fault }
    ensures short { length result.now ≤ 8 }
{
    match fault {
        ChainFault::Loop => b"Loop",
        ChainFault::BadIndex => b"BadIndex",
        ChainFault::Order => b"Order",
        ChainFault::Indirect => b"Indirect",
        ChainFault::TooLong => b"TooLong",
        ChainFault::Short => b"Short",
    }
}

/// Writes that a request is done, and how many bytes of it were written.
fn put_finished(out: &mut LineBuffer, head: u16, len: u32)
    ensures { out.new ≡ step_text (steps.Finished head len) }
{
    put_numbered(out, b"finished ", u64::from(head));
    out.append(b" ");
    out.append_decimal(u64::from(len));
}

/// Writes why a device is down.
fn put_chain(out: &mut LineBuffer, fault: ChainFault)
    ensures { out.new ≡ step_text (steps.Chain fault) }
{
    put_words(out, b"chain ");
    out.append(chain_name(fault));
}

/// Writes what a step of a block device was.
pub(crate) fn put_step(out: &mut LineBuffer, answer: Result<Stepped, Refusal>) {
    match answer {
        Ok(Stepped::Began(reply)) => put_reply(out, reply),
        Ok(Stepped::Asked) => put_words(out, b"asked"),
        Ok(Stepped::Idle) => put_words(out, b"idle"),
        Ok(Stepped::Waiting) => put_words(out, b"waiting"),
        Ok(Stepped::Down) => put_words(out, b"down"),
        Ok(Stepped::Chain(fault)) => put_chain(out, fault),
        Ok(Stepped::Finished { head, len }) => put_finished(out, head, len),
        Err(why) => put_refusal(out, why),
    }
}

/// Writes what a step of a block device was, where a walk takes several events.
pub(crate) fn put_step_outcome(out: &mut LineBuffer, answer: Result<StepOutcome, Refusal>) {
    match answer {
        Ok(StepOutcome::Walking) => put_words(out, b"walking"),
        Ok(StepOutcome::Took(stepped)) => put_step(out, Ok(stepped)),
        Err(why) => put_refusal(out, why),
    }
}

/// Writes the status of a block device.
pub(crate) fn put_status(out: &mut LineBuffer, answer: Result<u8, Refusal>) {
    match answer {
        Ok(status) => put_numbered(out, b"status ", u64::from(status)),
        Err(why) => put_refusal(out, why),
    }
}
