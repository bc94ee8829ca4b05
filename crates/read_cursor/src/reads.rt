//! Numbers that are read at the place.
ghost use Rattle.std.specs.Prelude.{◌≡◌, length, reverse};
ghost use Rattle.std.specs.Int.{w8, w16, w32, w64, w128, cast_signed};
ghost use Rattle.frame_head.specs.Numbers.{number};
ghost use Rattle.read_cursor.specs.Reading.{rest_of};
ghost use Rattle.read_cursor.specs.Shorts.{Reads};

use crate::cursor::{Cursor, Short};
use crate::number::{Number, least_first, most_first};
use iobuf_node::Wrapped;
use storage::Told;

impl<'c, W: Wrapped, O: Told> Cursor<'c, W, O> {
    /// The number of the next bytes, the one that weighs most first. O(1) within a node, and no memory. Folly's
    /// `readBE`.
    pub fn read_be<T: Number>(&mut self) -> Result<T, Short>
        ensures { Reads T.size (λ bs. T.value (number bs)) self.old self.new result }
    {
        let mut bytes = [0u8; 16];
        let part = &mut bytes[..T::size()];
        self.pull(part)?;
        Ok(T::from_number(most_first(part)))
    }

    /// The number of the next bytes, the one that weighs least first. O(1) within a node, and no memory. Folly's
    /// `readLE`.
    pub fn read_le<T: Number>(&mut self) -> Result<T, Short>
        ensures { Reads T.size (λ bs. T.value (number (reverse bs))) self.old self.new result }
    {
        let mut bytes = [0u8; 16];
        let part = &mut bytes[..T::size()];
        self.pull(part)?;
        Ok(T::from_number(least_first(part)))
    }

    /// One byte as a number. `Buf::try_get_u8`.
    pub fn read_u8(&mut self) -> Result<u8, Short>
        ensures { Reads 1 (λ bs. number bs) self.old self.new result }
    {
        self.read_be()
    }

    /// Two bytes as a number, the one that weighs most first. `Buf::try_get_u16`.
    pub fn read_u16_be(&mut self) -> Result<u16, Short>
        ensures { Reads 2 (λ bs. number bs) self.old self.new result }
    {
        self.read_be()
    }

    /// Two bytes as a number, the one that weighs least first. `Buf::try_get_u16_le`.
    pub fn read_u16_le(&mut self) -> Result<u16, Short>
        ensures { Reads 2 (λ bs. number (reverse bs)) self.old self.new result }
    {
        self.read_le()
    }

    /// Four bytes as a number, the one that weighs most first. `Buf::try_get_u32`.
    pub fn read_u32_be(&mut self) -> Result<u32, Short>
        ensures { Reads 4 (λ bs. number bs) self.old self.new result }
    {
        self.read_be()
    }

    /// Four bytes as a number, the one that weighs least first. `Buf::try_get_u32_le`.
    pub fn read_u32_le(&mut self) -> Result<u32, Short>
        ensures { Reads 4 (λ bs. number (reverse bs)) self.old self.new result }
    {
        self.read_le()
    }

    /// Eight bytes as a number, the one that weighs most first. `Buf::try_get_u64`.
    pub fn read_u64_be(&mut self) -> Result<u64, Short>
        ensures { Reads 8 (λ bs. number bs) self.old self.new result }
    {
        self.read_be()
    }

    /// Eight bytes as a number, the one that weighs least first. `Buf::try_get_u64_le`.
    pub fn read_u64_le(&mut self) -> Result<u64, Short>
        ensures { Reads 8 (λ bs. number (reverse bs)) self.old self.new result }
    {
        self.read_le()
    }

    /// Sixteen bytes as a number, the one that weighs most first. `Buf::try_get_u128`.
    pub fn read_u128_be(&mut self) -> Result<u128, Short>
        ensures { Reads 16 (λ bs. number bs) self.old self.new result }
    {
        self.read_be()
    }

    /// Sixteen bytes as a number, the one that weighs least first. `Buf::try_get_u128_le`.
    pub fn read_u128_le(&mut self) -> Result<u128, Short>
        ensures { Reads 16 (λ bs. number (reverse bs)) self.old self.new result }
    {
        self.read_le()
    }

    /// One byte as a number, with its sign. `Buf::try_get_i8`.
    pub fn read_i8(&mut self) -> Result<i8, Short>
        ensures { Reads 1 (λ bs. cast_signed w8 (number bs)) self.old self.new result }
    {
        self.read_be()
    }

    /// Two bytes as a number, with its sign, the one that weighs most first. `Buf::try_get_i16`.
    pub fn read_i16_be(&mut self) -> Result<i16, Short>
        ensures { Reads 2 (λ bs. cast_signed w16 (number bs)) self.old self.new result }
    {
        self.read_be()
    }

    /// Two bytes as a number, with its sign, the one that weighs least first. `Buf::try_get_i16_le`.
    pub fn read_i16_le(&mut self) -> Result<i16, Short>
        ensures { Reads 2 (λ bs. cast_signed w16 (number (reverse bs))) self.old self.new result }
    {
        self.read_le()
    }

    /// Four bytes as a number, with its sign, the one that weighs most first. `Buf::try_get_i32`.
    pub fn read_i32_be(&mut self) -> Result<i32, Short>
        ensures { Reads 4 (λ bs. cast_signed w32 (number bs)) self.old self.new result }
    {
        self.read_be()
    }

    /// Four bytes as a number, with its sign, the one that weighs least first. `Buf::try_get_i32_le`.
    pub fn read_i32_le(&mut self) -> Result<i32, Short>
        ensures { Reads 4 (λ bs. cast_signed w32 (number (reverse bs))) self.old self.new result }
    {
        self.read_le()
    }

    /// Eight bytes as a number, with its sign, the one that weighs most first. `Buf::try_get_i64`.
    pub fn read_i64_be(&mut self) -> Result<i64, Short>
        ensures { Reads 8 (λ bs. cast_signed w64 (number bs)) self.old self.new result }
    {
        self.read_be()
    }

    /// Eight bytes as a number, with its sign, the one that weighs least first. `Buf::try_get_i64_le`.
    pub fn read_i64_le(&mut self) -> Result<i64, Short>
        ensures { Reads 8 (λ bs. cast_signed w64 (number (reverse bs))) self.old self.new result }
    {
        self.read_le()
    }

    /// Sixteen bytes as a number, with its sign, the one that weighs most first. `Buf::try_get_i128`.
    pub fn read_i128_be(&mut self) -> Result<i128, Short>
        ensures { Reads 16 (λ bs. cast_signed w128 (number bs)) self.old self.new result }
    {
        self.read_be()
    }

    /// Sixteen bytes as a number, with its sign, the one that weighs least first. `Buf::try_get_i128_le`.
    pub fn read_i128_le(&mut self) -> Result<i128, Short>
        ensures { Reads 16 (λ bs. cast_signed w128 (number (reverse bs))) self.old self.new result }
    {
        self.read_le()
    }
}
