// The numbers of the predeclared names.

/// `print(_:)`
pub const PRINT: u32 = 0;
/// `read()`
pub const READ: u32 = 1;
/// `precondition(_:)`
pub const PRECONDITION: u32 = 2;
/// The type `Int`.
pub const INT: u32 = 3;
/// The type `Bool`.
pub const BOOL: u32 = 4;
/// The trait `Copyable`.
pub const COPYABLE: u32 = 5;
/// The trait `Movable`.
pub const MOVABLE: u32 = 6;
/// The trait `Deinitializable`.
pub const DEINITIALIZABLE: u32 = 7;
/// The member `count` of an array.
pub const COUNT: u32 = 8;
/// The member `append(_:)` of an array.
pub const APPEND: u32 = 9;
/// The member `remove_last()` of an array.
pub const REMOVE_LAST: u32 = 10;
/// The member `swap_at(_:_:)` of an array.
pub const SWAP_AT: u32 = 11;
/// The member `copy()` of every copyable value.
pub const COPY: u32 = 12;
/// The type `Int8`.
pub const INT8: u32 = 13;
/// The type `Int16`.
pub const INT16: u32 = 14;
/// The type `Int32`.
pub const INT32: u32 = 15;
/// The type `UInt8`.
pub const UINT8: u32 = 16;
/// The type `UInt16`.
pub const UINT16: u32 = 17;
/// The type `UInt32`.
pub const UINT32: u32 = 18;
/// The type `UInt64`.
pub const UINT64: u32 = 19;
