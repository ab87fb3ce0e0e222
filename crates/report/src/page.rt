//! Bytes that are written one after the other.
ghost use Rattle.std.specs.Prelude.{◌≡◌, ◌++◌, OnOk, decimal};
ghost use Rattle.std.specs.Fmt.{signed_decimal};
ghost use Rattle.std.specs.Str.{str_to_ascii_lowercase};
ghost use Rattle.report.specs.Report.{bound_text, place_text, range_text, value_text};

use interval::{Itv, Val};
use itoa::Buffer;
use px_base::Pos;
use std::alloc::{AllocError, Global};

/// A text that grows.
#[derive(Drop)]
pub(crate) struct Page {
    pub bytes: Vec<u8>,
}

/// After an error the page may have a part of what was to be written.
impl Page {
    ghost use Rattle.std.specs.Prelude.{[]};

    pub(crate) fn new(alloc: Global) -> Page
        ensures { result.bytes.items ≡ [] }
    {
        Page {
            bytes: Vec::new(alloc),
        }
    }

    pub(crate) fn put(&mut self, text: &str) -> Result<(), AllocError>
        ensures { OnOk result (self.new.bytes.items ≡ self.old.bytes.items ++ text.now) }
    {
        self.bytes.extend_from_slice(text.as_bytes())
    }

    /// A number in decimal.
    pub(crate) fn put_number(&mut self, n: usize) -> Result<(), AllocError>
        ensures { OnOk result (self.new.bytes.items ≡ self.old.bytes.items ++ decimal n) }
    {
        let mut buffer = Buffer::new();
        self.put(buffer.format(n))
    }

    /// An integer in decimal, with its sign where it is negative.
    pub(crate) fn put_integer(&mut self, z: i32) -> Result<(), AllocError>
        ensures { OnOk result (self.new.bytes.items ≡ self.old.bytes.items ++ signed_decimal z) }
    {
        let mut buffer = Buffer::new();
        self.put(buffer.format(z))
    }

    /// `LINE:COL`
    pub(crate) fn put_place(&mut self, place: Pos) -> Result<(), AllocError>
        ensures { OnOk result (self.new.bytes.items ≡ self.old.bytes.items ++ place_text place) }
    {
        self.put_number(place.line as usize)?;
        self.put(":")?;
        self.put_number(place.col as usize)
    }

    /// A name in lower case.
    pub(crate) fn put_name(&mut self, name: &[u8]) -> Result<(), AllocError>
        ensures { OnOk result (self.new.bytes.items ≡ self.old.bytes.items ++ str_to_ascii_lowercase name.now) }
    {
        for byte in name {
            self.bytes.push(byte.to_ascii_lowercase())?;
        }
        Ok(())
    }

    /// A bound of an interval; that of an interval of truths is one.
    fn put_bound(&mut self, boolean: bool, z: i32) -> Result<(), AllocError>
        ensures { OnOk result (self.new.bytes.items ≡ self.old.bytes.items ++ bound_text boolean z) }
    {
        if !boolean {
            return self.put_integer(z);
        }
        self.put(if z == 0 { "false" } else { "true" })
    }

    /// `in LO..HI`
    fn put_range(&mut self, boolean: bool, range: Itv) -> Result<(), AllocError>
        ensures { OnOk result (self.new.bytes.items ≡ self.old.bytes.items ++ range_text boolean range) }
    {
        self.put("in ")?;
        self.put_bound(boolean, range.lo)?;
        self.put("..")?;
        self.put_bound(boolean, range.hi)
    }

    /// `in LO..HI`, `undefined` or both.
    pub(crate) fn put_value(&mut self, boolean: bool, v: Val) -> Result<(), AllocError>
        ensures { OnOk result (self.new.bytes.items ≡ self.old.bytes.items ++ value_text boolean v) }
    {
        if v.itv.is_empty() {
            return self.put("undefined");
        }
        self.put_range(boolean, v.itv)?;
        if v.undef {
            return self.put(" or undefined");
        }
        Ok(())
    }
}
