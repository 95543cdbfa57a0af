ghost use Rattle.std.specs.Prelude.{◌≡◌, ◌+◌, ◌≤◌, ◌++◌, length};
ghost use Rattle.iom_hardware_script.specs.Answers.{hardware_answer_text};

use iom_script::{BUFFER_SIZE, LineBuffer};

/// The bytes of the longest answer here.
pub const LONGEST_ANSWER: usize = 26;

/// What a line is answered with, where it is no outcome of a world.
#[derive(Clone, Copy, PartialEq, Eq)]
pub enum Answer {
    /// A register's value.
    Value(u64),
    /// No register is at the offset.
    BadOffset,
    /// The register can't be read or written in so many bytes.
    BadWidth,
    /// No claim with this number is open.
    NoSuchClaim,
    /// What was withdrawn is withdrawn under this number, from 1.
    Claimed(u32),
    /// What is claimed is so.
    Good,
}

/// Appends the text of an answer, without a line feed. It takes no memory.
pub fn append_answer(out: &mut LineBuffer, answer: &Answer)
    requires { length out.old + LONGEST_ANSWER ≤ BUFFER_SIZE }
    ensures text { out.new ≡ out.old ++ hardware_answer_text answer.now }
    ensures short { length out.new ≤ length out.old + LONGEST_ANSWER }
{
    match *answer {
        Answer::Value(value) => {
            out.append(b"value ");
            out.append_hex_number(value);
        }
        Answer::BadOffset => out.append(b"refused 24 BadOffset"),
        Answer::BadWidth => out.append(b"refused 25 BadWidth"),
        Answer::NoSuchClaim => out.append(b"refused 26 NoSuchClaim"),
        Answer::Claimed(number) => {
            out.append(b"claim ");
            out.append_decimal(u64::from(number));
        }
        Answer::Good => out.append(b"good"),
    }
}
