// An instruction's word, read and written: only here is it known where its fields stand.
ghost use Rattle.std.specs.Prelude.{◌≡◌, ◌≤◌, ◌<◌, ◌/◌, length};
ghost use Rattle.spec.specs.Script.{fields, fields_of, word_of};
ghost use Rattle.moves.specs.Moves.{narrow_word};
ghost use Rattle.script.specs.Lines.{number_of_opcode, ReadAs, fields_in, FieldsSmall, word_at};

use rule::stored::{Word, word_at};

// What an instruction does, with the number that its word has for it. The last is the one number that is no opcode.
#[derive(Clone, Copy, Debug, PartialEq, Eq)]
pub enum Opcode {
    Halt = 0,
    Set = 1,
    Copy = 2,
    Raise = 3,
    Input = 4,
    IfEqual = 5,
    IfBelow = 6,
    Goto = 7,
    Present = 8,
    SetWork = 9,
    IfKept = 10,
    IfWork = 11,
    Keep = 12,
    IfEqualRegisters = 13,
    Lower = 14,
    Unknown = 15,
}

// An instruction. `c` is a constant, or names a register or a node.
#[derive(Clone, Copy)]
pub struct Instruction {
    pub opcode: Opcode,
    pub r: usize,
    pub c: usize,
    pub target: usize,
}

// The opcode with this number; one from 15 on is that of no instruction. So an instruction can be made of any number, and what is said of one
// by its opcode is said of its number.
pub fn opcode_of(number: u32) -> Opcode
    ensures known { number < 16 → number_of_opcode result ≡ number }
    ensures unknown { 15 ≤ number → result ≡ Opcode.Unknown }
    ensures alike { ReadAs number (number_of_opcode result) }
{
    match number {
        0 => Opcode::Halt,
        1 => Opcode::Set,
        2 => Opcode::Copy,
        3 => Opcode::Raise,
        4 => Opcode::Input,
        5 => Opcode::IfEqual,
        6 => Opcode::IfBelow,
        7 => Opcode::Goto,
        8 => Opcode::Present,
        9 => Opcode::SetWork,
        10 => Opcode::IfKept,
        11 => Opcode::IfWork,
        12 => Opcode::Keep,
        13 => Opcode::IfEqualRegisters,
        14 => Opcode::Lower,
        _ => Opcode::Unknown,
    }
}

pub fn decode(word: u32) -> Instruction
    ensures fields { fields_in result ≡ fields_of word }
    ensures small { FieldsSmall (fields_in result) }
{
    Instruction {
        opcode: opcode_of(word / 268435456 % 16),
        r: (word / 16777216 % 16) as usize,
        c: (word / 1024 % 16384) as usize,
        target: (word % 1024) as usize,
    }
}

pub fn encode(opcode: Opcode, r: usize, c: usize, target: usize) -> u32
    requires { FieldsSmall (fields (number_of_opcode opcode) r c target) }
    ensures { result ≡ word_of (fields (number_of_opcode opcode) r c target) }
{
    opcode as u32 * 268435456 + r as u32 * 16777216 + c as u32 * 1024 + target as u32
}

// The instruction's word in a line's first word, read as 64 bits: the upper half.
pub fn upper_half(first: u64) -> u32
    ensures { result ≡ narrow_word first }
{
    (first / 4294967296) as u32
}

// The instruction's word of line l of an annotated script.
pub fn line_word<W: Word>(script: &[W], l: usize) -> u32
    requires { l < length (W.numbers script.now) / 8 }
    ensures { result ≡ word_at W.IS_WIDE (W.numbers script.now) l }
{
    upper_half(word_at(script, 8 * l))
}
