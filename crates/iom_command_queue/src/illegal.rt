/// Why 16 bytes are no command: the first of these that applies. When each does is `IsIllegal` in
/// `specs/Legal.antt`.
#[derive(Clone, Copy, PartialEq, Eq, Debug)]
pub enum Illegal {
    /// No command has this opcode.
    Opcode,
    /// No command of this opcode has this func3.
    Func,
    /// A reserved bit is set.
    Reserved,
    /// A bit of a field is set that the command doesn't allow: PSCV of IOTINVAL.GVMA (section
    /// 3.1.1), G of ATS.INVAL (section 3.1.4).
    Combination,
}
