//! The words of a list of cases. A word's number is that of its letters, as text::word reads it.

#[derive(Clone, Copy)]
pub struct Word {
    pub number: u64,
}

impl Word {
    // Cases and steps.
    pub const CASE: u64 = 0x6361_7365;

    pub const STEP: u64 = 0x7374_6570;

    pub const THEN: u64 = 0x7468_656e;

    pub const VALID: u64 = 0x76_616c_6964;

    pub const INVALID: u64 = 0x69_6e76_616c_6964;

    // Numbers of the machine.
    pub const PC: u64 = 0x7063;

    pub const NEXT: u64 = 0x6e65_7874;

    pub const HI: u64 = 0x6869;

    pub const LO: u64 = 0x6c6f;

    pub const HEAP: u64 = 0x6865_6170;

    pub const STEPS: u64 = 0x73_7465_7073;

    pub const OFFSET: u64 = 0x6f66_6673_6574;

    pub const HELD: u64 = 0x6865_6c64;

    pub const USED: u64 = 0x7573_6564;

    pub const PAGESIZE: u64 = 0x7061_6765_7369_7a65;

    pub const HINTSIZE: u64 = 0x6869_6e74_7369_7a65;

    pub const OUTSIZE: u64 = 0x6f_7574_7369_7a65;

    pub const IDXSIZE: u64 = 0x69_6478_7369_7a65;

    pub const DATASIZE: u64 = 0x6461_7461_7369_7a65;

    // Single bytes.
    pub const EXITED: u64 = 0x6578_6974_6564;

    pub const CODE: u64 = 0x636f_6465;

    pub const RULES: u64 = 0x72_756c_6573;

    // Buffers.
    pub const KEY: u64 = 0x6b_6579;

    pub const HINT: u64 = 0x6869_6e74;

    pub const OUTPUT: u64 = 0x6f75_7470_7574;

    pub const INDEX: u64 = 0x69_6e64_6578;

    pub const DATA: u64 = 0x6461_7461;

    pub const PAGES: u64 = 0x70_6167_6573;

    // What sets several things.
    pub const MEM: u64 = 0x6d_656d;

    pub const R: u64 = 0x72;

    pub const CALL: u64 = 0x6361_6c6c;

    pub const ENTRY: u64 = 0x65_6e74_7279;

    pub const ANSWERS: u64 = 0x61_6e73_7765_7273;

    pub const GOES: u64 = 0x676f_6573;

    pub const COUNTED: u64 = 0x63_6f75_6e74_6564;

    pub const WROTE: u64 = 0x77_726f_7465;

    pub const GAVE: u64 = 0x6761_7665;

    pub const LEFT: u64 = 0x6c65_6674;

    pub const REFUSED: u64 = 0x72_6566_7573_6564;

    pub const OPEN: u64 = 0x6f70_656e;
}
