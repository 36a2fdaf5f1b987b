//! Laws of constant pools in bytes, each the contract of a function that does nothing.

ghost use Rattle.jvm_pool_bytes.specs.Laws.{DescriptorKinds, OrderIsPool, PoolIsRead, PoolIsSpelled};

/// What is read as a constant pool is one, and the bytes are its spelling.
pub fn pool_is_spelled()
    ensures { PoolIsSpelled }
{}

/// A constant pool is read from its spelling, whatever follows.
pub fn pool_is_read()
    ensures { PoolIsRead }
{}

/// Entries that stand in the order of their first mention are a constant pool.
pub fn order_is_pool()
    ensures { OrderIsPool }
{}

/// Among ASCII texts the descriptors of fields, and those of methods, are exactly those that spell one.
pub fn descriptor_kinds()
    ensures { DescriptorKinds }
{}
