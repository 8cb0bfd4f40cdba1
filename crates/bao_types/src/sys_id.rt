/// The number of a system register, as MRS and MSR name it (ARM DDI 0487, "System register encoding").
#[derive(Clone, Copy, Debug, PartialEq, Eq)]
pub struct SysId {
    /// 2 or 3 in an instruction word.
    pub op0: u8,
    /// 0 to 7.
    pub op1: u8,
    /// 0 to 15.
    pub crn: u8,
    /// 0 to 15.
    pub crm: u8,
    /// 0 to 7.
    pub op2: u8,
}
