//! The rows of several opcodes: an enum of the opcodes for each, by its number (JVMS SE 8 §6.5).

ghost use Rattle.std.specs.Prelude.{◌≡◌, IfSome};
ghost use Rattle.jvm_code_opcodes.specs.Opcodes.{int_constant_code, int_constant_of};
ghost use Rattle.jvm_code_opcodes.specs.Opcodes.{long_constant_code, long_constant_of};
ghost use Rattle.jvm_code_opcodes.specs.Opcodes.{load_op_code, load_op_of};
ghost use Rattle.jvm_code_opcodes.specs.Opcodes.{fixed_load_code, fixed_load_of};
ghost use Rattle.jvm_code_opcodes.specs.Opcodes.{array_load_code, array_load_of};
ghost use Rattle.jvm_code_opcodes.specs.Opcodes.{store_op_code, store_op_of};
ghost use Rattle.jvm_code_opcodes.specs.Opcodes.{fixed_store_code, fixed_store_of};
ghost use Rattle.jvm_code_opcodes.specs.Opcodes.{array_store_code, array_store_of};
ghost use Rattle.jvm_code_opcodes.specs.Opcodes.{stack_op_code, stack_op_of};
ghost use Rattle.jvm_code_opcodes.specs.Opcodes.{arithmetic_code, arithmetic_of};
ghost use Rattle.jvm_code_opcodes.specs.Opcodes.{division_code, division_of};
ghost use Rattle.jvm_code_opcodes.specs.Opcodes.{negation_code, negation_of};
ghost use Rattle.jvm_code_opcodes.specs.Opcodes.{shift_code, shift_of};
ghost use Rattle.jvm_code_opcodes.specs.Opcodes.{bitwise_code, bitwise_of};
ghost use Rattle.jvm_code_opcodes.specs.Opcodes.{conversion_code, conversion_of};
ghost use Rattle.jvm_code_opcodes.specs.Opcodes.{zero_test_code, zero_test_of};
ghost use Rattle.jvm_code_opcodes.specs.Opcodes.{int_test_code, int_test_of};
ghost use Rattle.jvm_code_opcodes.specs.Opcodes.{reference_test_code, reference_test_of};
ghost use Rattle.jvm_code_opcodes.specs.Opcodes.{return_op_code, return_op_of};
ghost use Rattle.jvm_code_opcodes.specs.Opcodes.{field_op_code, field_op_of};
ghost use Rattle.jvm_code_opcodes.specs.Opcodes.{invoke_op_code, invoke_op_of};
ghost use Rattle.jvm_code_opcodes.specs.Opcodes.{null_test_code, null_test_of};

/// Pushes the `int` that its name says, -1 to 5 (`iconst_<i>`).
#[derive(Clone, Copy, Debug, PartialEq, Eq)]
pub enum IntConstant {
    IconstM1 = 0x02,
    Iconst0 = 0x03,
    Iconst1 = 0x04,
    Iconst2 = 0x05,
    Iconst3 = 0x06,
    Iconst4 = 0x07,
    Iconst5 = 0x08,
}

impl IntConstant {
    /// The opcode.
    pub fn code(self) -> u8
        ensures { result ≡ int_constant_code self }
    {
        self as u8
    }

    /// The instruction of an opcode, where the row has it.
    #[tactic(auto, unfolding(crate::specs::Opcodes::int_constant_of))]
    pub fn of_code(code: u8) -> Option<IntConstant>
        ensures is { result ≡ int_constant_of code }
        ensures back { IfSome result (λ op. int_constant_code op ≡ code) }
    {
        match code {
            0x02 => Some(IntConstant::IconstM1),
            0x03 => Some(IntConstant::Iconst0),
            0x04 => Some(IntConstant::Iconst1),
            0x05 => Some(IntConstant::Iconst2),
            0x06 => Some(IntConstant::Iconst3),
            0x07 => Some(IntConstant::Iconst4),
            0x08 => Some(IntConstant::Iconst5),
            _ => None,
        }
    }
}

/// Pushes the `long` that its name says (`lconst_<l>`).
#[derive(Clone, Copy, Debug, PartialEq, Eq)]
pub enum LongConstant {
    Lconst0 = 0x09,
    Lconst1 = 0x0a,
}

impl LongConstant {
    /// The opcode.
    pub fn code(self) -> u8
        ensures { result ≡ long_constant_code self }
    {
        self as u8
    }

    /// The instruction of an opcode, where the row has it.
    #[tactic(auto, unfolding(crate::specs::Opcodes::long_constant_of))]
    pub fn of_code(code: u8) -> Option<LongConstant>
        ensures is { result ≡ long_constant_of code }
        ensures back { IfSome result (λ op. long_constant_code op ≡ code) }
    {
        match code {
            0x09 => Some(LongConstant::Lconst0),
            0x0a => Some(LongConstant::Lconst1),
            _ => None,
        }
    }
}

/// Pushes a local variable.
#[derive(Clone, Copy, Debug, PartialEq, Eq)]
pub enum LoadOp {
    Iload = 0x15,
    Lload = 0x16,
    Aload = 0x19,
}

impl LoadOp {
    /// The opcode.
    pub fn code(self) -> u8
        ensures { result ≡ load_op_code self }
    {
        self as u8
    }

    /// The instruction of an opcode, where the row has it.
    #[tactic(auto, unfolding(crate::specs::Opcodes::load_op_of))]
    pub fn of_code(code: u8) -> Option<LoadOp>
        ensures is { result ≡ load_op_of code }
        ensures back { IfSome result (λ op. load_op_code op ≡ code) }
    {
        match code {
            0x15 => Some(LoadOp::Iload),
            0x16 => Some(LoadOp::Lload),
            0x19 => Some(LoadOp::Aload),
            _ => None,
        }
    }
}

/// Pushes the local variable that its name says (`iload_<n>` and its kin).
#[derive(Clone, Copy, Debug, PartialEq, Eq)]
pub enum FixedLoad {
    Iload0 = 0x1a,
    Iload1 = 0x1b,
    Iload2 = 0x1c,
    Iload3 = 0x1d,
    Lload0 = 0x1e,
    Lload1 = 0x1f,
    Lload2 = 0x20,
    Lload3 = 0x21,
    Aload0 = 0x2a,
    Aload1 = 0x2b,
    Aload2 = 0x2c,
    Aload3 = 0x2d,
}

impl FixedLoad {
    /// The opcode.
    pub fn code(self) -> u8
        ensures { result ≡ fixed_load_code self }
    {
        self as u8
    }

    /// The instruction of an opcode, where the row has it.
    #[tactic(auto, unfolding(crate::specs::Opcodes::fixed_load_of))]
    pub fn of_code(code: u8) -> Option<FixedLoad>
        ensures is { result ≡ fixed_load_of code }
        ensures back { IfSome result (λ op. fixed_load_code op ≡ code) }
    {
        match code {
            0x1a => Some(FixedLoad::Iload0),
            0x1b => Some(FixedLoad::Iload1),
            0x1c => Some(FixedLoad::Iload2),
            0x1d => Some(FixedLoad::Iload3),
            0x1e => Some(FixedLoad::Lload0),
            0x1f => Some(FixedLoad::Lload1),
            0x20 => Some(FixedLoad::Lload2),
            0x21 => Some(FixedLoad::Lload3),
            0x2a => Some(FixedLoad::Aload0),
            0x2b => Some(FixedLoad::Aload1),
            0x2c => Some(FixedLoad::Aload2),
            0x2d => Some(FixedLoad::Aload3),
            _ => None,
        }
    }
}

/// Takes an array and an index, and pushes the element.
#[derive(Clone, Copy, Debug, PartialEq, Eq)]
pub enum ArrayLoad {
    Iaload = 0x2e,
    Aaload = 0x32,
}

impl ArrayLoad {
    /// The opcode.
    pub fn code(self) -> u8
        ensures { result ≡ array_load_code self }
    {
        self as u8
    }

    /// The instruction of an opcode, where the row has it.
    #[tactic(auto, unfolding(crate::specs::Opcodes::array_load_of))]
    pub fn of_code(code: u8) -> Option<ArrayLoad>
        ensures is { result ≡ array_load_of code }
        ensures back { IfSome result (λ op. array_load_code op ≡ code) }
    {
        match code {
            0x2e => Some(ArrayLoad::Iaload),
            0x32 => Some(ArrayLoad::Aaload),
            _ => None,
        }
    }
}

/// Pops into a local variable.
#[derive(Clone, Copy, Debug, PartialEq, Eq)]
pub enum StoreOp {
    Istore = 0x36,
    Lstore = 0x37,
    Astore = 0x3a,
}

impl StoreOp {
    /// The opcode.
    pub fn code(self) -> u8
        ensures { result ≡ store_op_code self }
    {
        self as u8
    }

    /// The instruction of an opcode, where the row has it.
    #[tactic(auto, unfolding(crate::specs::Opcodes::store_op_of))]
    pub fn of_code(code: u8) -> Option<StoreOp>
        ensures is { result ≡ store_op_of code }
        ensures back { IfSome result (λ op. store_op_code op ≡ code) }
    {
        match code {
            0x36 => Some(StoreOp::Istore),
            0x37 => Some(StoreOp::Lstore),
            0x3a => Some(StoreOp::Astore),
            _ => None,
        }
    }
}

/// Pops into the local variable that its name says (`istore_<n>` and its kin).
#[derive(Clone, Copy, Debug, PartialEq, Eq)]
pub enum FixedStore {
    Istore0 = 0x3b,
    Istore1 = 0x3c,
    Istore2 = 0x3d,
    Istore3 = 0x3e,
    Lstore0 = 0x3f,
    Lstore1 = 0x40,
    Lstore2 = 0x41,
    Lstore3 = 0x42,
    Astore0 = 0x4b,
    Astore1 = 0x4c,
    Astore2 = 0x4d,
    Astore3 = 0x4e,
}

impl FixedStore {
    /// The opcode.
    pub fn code(self) -> u8
        ensures { result ≡ fixed_store_code self }
    {
        self as u8
    }

    /// The instruction of an opcode, where the row has it.
    #[tactic(auto, unfolding(crate::specs::Opcodes::fixed_store_of))]
    pub fn of_code(code: u8) -> Option<FixedStore>
        ensures is { result ≡ fixed_store_of code }
        ensures back { IfSome result (λ op. fixed_store_code op ≡ code) }
    {
        match code {
            0x3b => Some(FixedStore::Istore0),
            0x3c => Some(FixedStore::Istore1),
            0x3d => Some(FixedStore::Istore2),
            0x3e => Some(FixedStore::Istore3),
            0x3f => Some(FixedStore::Lstore0),
            0x40 => Some(FixedStore::Lstore1),
            0x41 => Some(FixedStore::Lstore2),
            0x42 => Some(FixedStore::Lstore3),
            0x4b => Some(FixedStore::Astore0),
            0x4c => Some(FixedStore::Astore1),
            0x4d => Some(FixedStore::Astore2),
            0x4e => Some(FixedStore::Astore3),
            _ => None,
        }
    }
}

/// Takes an array, an index and a value, and stores the value.
#[derive(Clone, Copy, Debug, PartialEq, Eq)]
pub enum ArrayStore {
    Iastore = 0x4f,
    Aastore = 0x53,
}

impl ArrayStore {
    /// The opcode.
    pub fn code(self) -> u8
        ensures { result ≡ array_store_code self }
    {
        self as u8
    }

    /// The instruction of an opcode, where the row has it.
    #[tactic(auto, unfolding(crate::specs::Opcodes::array_store_of))]
    pub fn of_code(code: u8) -> Option<ArrayStore>
        ensures is { result ≡ array_store_of code }
        ensures back { IfSome result (λ op. array_store_code op ≡ code) }
    {
        match code {
            0x4f => Some(ArrayStore::Iastore),
            0x53 => Some(ArrayStore::Aastore),
            _ => None,
        }
    }
}

/// Drops, copies or swaps units of the operand stack (JVMS SE 8 §2.11.6).
#[derive(Clone, Copy, Debug, PartialEq, Eq)]
pub enum StackOp {
    Pop = 0x57,
    Pop2 = 0x58,
    Dup = 0x59,
    DupX1 = 0x5a,
    DupX2 = 0x5b,
    Dup2 = 0x5c,
    Dup2X1 = 0x5d,
    Dup2X2 = 0x5e,
    Swap = 0x5f,
}

impl StackOp {
    /// The opcode.
    pub fn code(self) -> u8
        ensures { result ≡ stack_op_code self }
    {
        self as u8
    }

    /// The instruction of an opcode, where the row has it.
    #[tactic(auto, unfolding(crate::specs::Opcodes::stack_op_of))]
    pub fn of_code(code: u8) -> Option<StackOp>
        ensures is { result ≡ stack_op_of code }
        ensures back { IfSome result (λ op. stack_op_code op ≡ code) }
    {
        match code {
            0x57 => Some(StackOp::Pop),
            0x58 => Some(StackOp::Pop2),
            0x59 => Some(StackOp::Dup),
            0x5a => Some(StackOp::DupX1),
            0x5b => Some(StackOp::DupX2),
            0x5c => Some(StackOp::Dup2),
            0x5d => Some(StackOp::Dup2X1),
            0x5e => Some(StackOp::Dup2X2),
            0x5f => Some(StackOp::Swap),
            _ => None,
        }
    }
}

/// Adds, subtracts or multiplies two numbers, and wraps.
#[derive(Clone, Copy, Debug, PartialEq, Eq)]
pub enum Arithmetic {
    Iadd = 0x60,
    Ladd = 0x61,
    Isub = 0x64,
    Lsub = 0x65,
    Imul = 0x68,
    Lmul = 0x69,
}

impl Arithmetic {
    /// The opcode.
    pub fn code(self) -> u8
        ensures { result ≡ arithmetic_code self }
    {
        self as u8
    }

    /// The instruction of an opcode, where the row has it.
    #[tactic(auto, unfolding(crate::specs::Opcodes::arithmetic_of))]
    pub fn of_code(code: u8) -> Option<Arithmetic>
        ensures is { result ≡ arithmetic_of code }
        ensures back { IfSome result (λ op. arithmetic_code op ≡ code) }
    {
        match code {
            0x60 => Some(Arithmetic::Iadd),
            0x61 => Some(Arithmetic::Ladd),
            0x64 => Some(Arithmetic::Isub),
            0x65 => Some(Arithmetic::Lsub),
            0x68 => Some(Arithmetic::Imul),
            0x69 => Some(Arithmetic::Lmul),
            _ => None,
        }
    }
}

/// Quotient or remainder of two numbers; a zero divisor throws.
#[derive(Clone, Copy, Debug, PartialEq, Eq)]
pub enum Division {
    Idiv = 0x6c,
    Ldiv = 0x6d,
    Irem = 0x70,
    Lrem = 0x71,
}

impl Division {
    /// The opcode.
    pub fn code(self) -> u8
        ensures { result ≡ division_code self }
    {
        self as u8
    }

    /// The instruction of an opcode, where the row has it.
    #[tactic(auto, unfolding(crate::specs::Opcodes::division_of))]
    pub fn of_code(code: u8) -> Option<Division>
        ensures is { result ≡ division_of code }
        ensures back { IfSome result (λ op. division_code op ≡ code) }
    {
        match code {
            0x6c => Some(Division::Idiv),
            0x6d => Some(Division::Ldiv),
            0x70 => Some(Division::Irem),
            0x71 => Some(Division::Lrem),
            _ => None,
        }
    }
}

/// Negates a number, and wraps.
#[derive(Clone, Copy, Debug, PartialEq, Eq)]
pub enum Negation {
    Ineg = 0x74,
    Lneg = 0x75,
}

impl Negation {
    /// The opcode.
    pub fn code(self) -> u8
        ensures { result ≡ negation_code self }
    {
        self as u8
    }

    /// The instruction of an opcode, where the row has it.
    #[tactic(auto, unfolding(crate::specs::Opcodes::negation_of))]
    pub fn of_code(code: u8) -> Option<Negation>
        ensures is { result ≡ negation_of code }
        ensures back { IfSome result (λ op. negation_code op ≡ code) }
    {
        match code {
            0x74 => Some(Negation::Ineg),
            0x75 => Some(Negation::Lneg),
            _ => None,
        }
    }
}

/// Shifts a number by an `int`, of which the low five or six bits count.
#[derive(Clone, Copy, Debug, PartialEq, Eq)]
pub enum Shift {
    Ishl = 0x78,
    Lshl = 0x79,
    Ishr = 0x7a,
    Lshr = 0x7b,
    Iushr = 0x7c,
    Lushr = 0x7d,
}

impl Shift {
    /// The opcode.
    pub fn code(self) -> u8
        ensures { result ≡ shift_code self }
    {
        self as u8
    }

    /// The instruction of an opcode, where the row has it.
    #[tactic(auto, unfolding(crate::specs::Opcodes::shift_of))]
    pub fn of_code(code: u8) -> Option<Shift>
        ensures is { result ≡ shift_of code }
        ensures back { IfSome result (λ op. shift_code op ≡ code) }
    {
        match code {
            0x78 => Some(Shift::Ishl),
            0x79 => Some(Shift::Lshl),
            0x7a => Some(Shift::Ishr),
            0x7b => Some(Shift::Lshr),
            0x7c => Some(Shift::Iushr),
            0x7d => Some(Shift::Lushr),
            _ => None,
        }
    }
}

/// Joins two numbers bit by bit.
#[derive(Clone, Copy, Debug, PartialEq, Eq)]
pub enum Bitwise {
    Iand = 0x7e,
    Land = 0x7f,
    Ior = 0x80,
    Lor = 0x81,
    Ixor = 0x82,
    Lxor = 0x83,
}

impl Bitwise {
    /// The opcode.
    pub fn code(self) -> u8
        ensures { result ≡ bitwise_code self }
    {
        self as u8
    }

    /// The instruction of an opcode, where the row has it.
    #[tactic(auto, unfolding(crate::specs::Opcodes::bitwise_of))]
    pub fn of_code(code: u8) -> Option<Bitwise>
        ensures is { result ≡ bitwise_of code }
        ensures back { IfSome result (λ op. bitwise_code op ≡ code) }
    {
        match code {
            0x7e => Some(Bitwise::Iand),
            0x7f => Some(Bitwise::Land),
            0x80 => Some(Bitwise::Ior),
            0x81 => Some(Bitwise::Lor),
            0x82 => Some(Bitwise::Ixor),
            0x83 => Some(Bitwise::Lxor),
            _ => None,
        }
    }
}

/// Converts a number to another type (JVMS SE 8 §2.11.4).
#[derive(Clone, Copy, Debug, PartialEq, Eq)]
pub enum Conversion {
    I2l = 0x85,
    L2i = 0x88,
    I2c = 0x92,
}

impl Conversion {
    /// The opcode.
    pub fn code(self) -> u8
        ensures { result ≡ conversion_code self }
    {
        self as u8
    }

    /// The instruction of an opcode, where the row has it.
    #[tactic(auto, unfolding(crate::specs::Opcodes::conversion_of))]
    pub fn of_code(code: u8) -> Option<Conversion>
        ensures is { result ≡ conversion_of code }
        ensures back { IfSome result (λ op. conversion_code op ≡ code) }
    {
        match code {
            0x85 => Some(Conversion::I2l),
            0x88 => Some(Conversion::L2i),
            0x92 => Some(Conversion::I2c),
            _ => None,
        }
    }
}

/// Jumps where an `int` compares so with zero (`if<cond>`).
#[derive(Clone, Copy, Debug, PartialEq, Eq)]
pub enum ZeroTest {
    Ifeq = 0x99,
    Ifne = 0x9a,
    Iflt = 0x9b,
    Ifge = 0x9c,
    Ifgt = 0x9d,
    Ifle = 0x9e,
}

impl ZeroTest {
    /// The opcode.
    pub fn code(self) -> u8
        ensures { result ≡ zero_test_code self }
    {
        self as u8
    }

    /// The instruction of an opcode, where the row has it.
    #[tactic(auto, unfolding(crate::specs::Opcodes::zero_test_of))]
    pub fn of_code(code: u8) -> Option<ZeroTest>
        ensures is { result ≡ zero_test_of code }
        ensures back { IfSome result (λ op. zero_test_code op ≡ code) }
    {
        match code {
            0x99 => Some(ZeroTest::Ifeq),
            0x9a => Some(ZeroTest::Ifne),
            0x9b => Some(ZeroTest::Iflt),
            0x9c => Some(ZeroTest::Ifge),
            0x9d => Some(ZeroTest::Ifgt),
            0x9e => Some(ZeroTest::Ifle),
            _ => None,
        }
    }
}

/// Jumps where two `int`s compare so (`if_icmp<cond>`).
#[derive(Clone, Copy, Debug, PartialEq, Eq)]
pub enum IntTest {
    IfIcmpeq = 0x9f,
    IfIcmpne = 0xa0,
    IfIcmplt = 0xa1,
    IfIcmpge = 0xa2,
    IfIcmpgt = 0xa3,
    IfIcmple = 0xa4,
}

impl IntTest {
    /// The opcode.
    pub fn code(self) -> u8
        ensures { result ≡ int_test_code self }
    {
        self as u8
    }

    /// The instruction of an opcode, where the row has it.
    #[tactic(auto, unfolding(crate::specs::Opcodes::int_test_of))]
    pub fn of_code(code: u8) -> Option<IntTest>
        ensures is { result ≡ int_test_of code }
        ensures back { IfSome result (λ op. int_test_code op ≡ code) }
    {
        match code {
            0x9f => Some(IntTest::IfIcmpeq),
            0xa0 => Some(IntTest::IfIcmpne),
            0xa1 => Some(IntTest::IfIcmplt),
            0xa2 => Some(IntTest::IfIcmpge),
            0xa3 => Some(IntTest::IfIcmpgt),
            0xa4 => Some(IntTest::IfIcmple),
            _ => None,
        }
    }
}

/// Jumps where two references compare so (`if_acmp<cond>`).
#[derive(Clone, Copy, Debug, PartialEq, Eq)]
pub enum ReferenceTest {
    IfAcmpeq = 0xa5,
    IfAcmpne = 0xa6,
}

impl ReferenceTest {
    /// The opcode.
    pub fn code(self) -> u8
        ensures { result ≡ reference_test_code self }
    {
        self as u8
    }

    /// The instruction of an opcode, where the row has it.
    #[tactic(auto, unfolding(crate::specs::Opcodes::reference_test_of))]
    pub fn of_code(code: u8) -> Option<ReferenceTest>
        ensures is { result ≡ reference_test_of code }
        ensures back { IfSome result (λ op. reference_test_code op ≡ code) }
    {
        match code {
            0xa5 => Some(ReferenceTest::IfAcmpeq),
            0xa6 => Some(ReferenceTest::IfAcmpne),
            _ => None,
        }
    }
}

/// Leaves the method, with the value that it names.
#[derive(Clone, Copy, Debug, PartialEq, Eq)]
pub enum ReturnOp {
    Ireturn = 0xac,
    Lreturn = 0xad,
    Areturn = 0xb0,
    Return = 0xb1,
}

impl ReturnOp {
    /// The opcode.
    pub fn code(self) -> u8
        ensures { result ≡ return_op_code self }
    {
        self as u8
    }

    /// The instruction of an opcode, where the row has it.
    #[tactic(auto, unfolding(crate::specs::Opcodes::return_op_of))]
    pub fn of_code(code: u8) -> Option<ReturnOp>
        ensures is { result ≡ return_op_of code }
        ensures back { IfSome result (λ op. return_op_code op ≡ code) }
    {
        match code {
            0xac => Some(ReturnOp::Ireturn),
            0xad => Some(ReturnOp::Lreturn),
            0xb0 => Some(ReturnOp::Areturn),
            0xb1 => Some(ReturnOp::Return),
            _ => None,
        }
    }
}

/// Reads or writes a field of an object.
#[derive(Clone, Copy, Debug, PartialEq, Eq)]
pub enum FieldOp {
    Getfield = 0xb4,
    Putfield = 0xb5,
}

impl FieldOp {
    /// The opcode.
    pub fn code(self) -> u8
        ensures { result ≡ field_op_code self }
    {
        self as u8
    }

    /// The instruction of an opcode, where the row has it.
    #[tactic(auto, unfolding(crate::specs::Opcodes::field_op_of))]
    pub fn of_code(code: u8) -> Option<FieldOp>
        ensures is { result ≡ field_op_of code }
        ensures back { IfSome result (λ op. field_op_code op ≡ code) }
    {
        match code {
            0xb4 => Some(FieldOp::Getfield),
            0xb5 => Some(FieldOp::Putfield),
            _ => None,
        }
    }
}

/// Calls a method of a class.
#[derive(Clone, Copy, Debug, PartialEq, Eq)]
pub enum InvokeOp {
    Invokevirtual = 0xb6,
    Invokespecial = 0xb7,
    Invokestatic = 0xb8,
}

impl InvokeOp {
    /// The opcode.
    pub fn code(self) -> u8
        ensures { result ≡ invoke_op_code self }
    {
        self as u8
    }

    /// The instruction of an opcode, where the row has it.
    #[tactic(auto, unfolding(crate::specs::Opcodes::invoke_op_of))]
    pub fn of_code(code: u8) -> Option<InvokeOp>
        ensures is { result ≡ invoke_op_of code }
        ensures back { IfSome result (λ op. invoke_op_code op ≡ code) }
    {
        match code {
            0xb6 => Some(InvokeOp::Invokevirtual),
            0xb7 => Some(InvokeOp::Invokespecial),
            0xb8 => Some(InvokeOp::Invokestatic),
            _ => None,
        }
    }
}

/// Jumps where a reference is null, or is not.
#[derive(Clone, Copy, Debug, PartialEq, Eq)]
pub enum NullTest {
    Ifnull = 0xc6,
    Ifnonnull = 0xc7,
}

impl NullTest {
    /// The opcode.
    pub fn code(self) -> u8
        ensures { result ≡ null_test_code self }
    {
        self as u8
    }

    /// The instruction of an opcode, where the row has it.
    #[tactic(auto, unfolding(crate::specs::Opcodes::null_test_of))]
    pub fn of_code(code: u8) -> Option<NullTest>
        ensures is { result ≡ null_test_of code }
        ensures back { IfSome result (λ op. null_test_code op ≡ code) }
    {
        match code {
            0xc6 => Some(NullTest::Ifnull),
            0xc7 => Some(NullTest::Ifnonnull),
            _ => None,
        }
    }
}
