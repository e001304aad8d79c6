// `Copied` for numbers and `bool`.
use crate::copied::Copied;
use std::alloc::{AllocError, Global};

impl Copied for () {
    fn copy(&self, _alloc: Global) -> Result<(), AllocError> {
        Ok(())
    }
}

impl Copied for bool {
    fn copy(&self, _alloc: Global) -> Result<bool, AllocError> {
        Ok(*self)
    }
}

impl Copied for u8 {
    fn copy(&self, _alloc: Global) -> Result<u8, AllocError> {
        Ok(*self)
    }
}

impl Copied for u16 {
    fn copy(&self, _alloc: Global) -> Result<u16, AllocError> {
        Ok(*self)
    }
}

impl Copied for u32 {
    fn copy(&self, _alloc: Global) -> Result<u32, AllocError> {
        Ok(*self)
    }
}

impl Copied for u64 {
    fn copy(&self, _alloc: Global) -> Result<u64, AllocError> {
        Ok(*self)
    }
}

impl Copied for usize {
    fn copy(&self, _alloc: Global) -> Result<usize, AllocError> {
        Ok(*self)
    }
}

impl Copied for u128 {
    fn copy(&self, _alloc: Global) -> Result<u128, AllocError> {
        Ok(*self)
    }
}

impl Copied for i8 {
    fn copy(&self, _alloc: Global) -> Result<i8, AllocError> {
        Ok(*self)
    }
}

impl Copied for i16 {
    fn copy(&self, _alloc: Global) -> Result<i16, AllocError> {
        Ok(*self)
    }
}

impl Copied for i32 {
    fn copy(&self, _alloc: Global) -> Result<i32, AllocError> {
        Ok(*self)
    }
}

impl Copied for i64 {
    fn copy(&self, _alloc: Global) -> Result<i64, AllocError> {
        Ok(*self)
    }
}

impl Copied for i128 {
    fn copy(&self, _alloc: Global) -> Result<i128, AllocError> {
        Ok(*self)
    }
}

impl Copied for isize {
    fn copy(&self, _alloc: Global) -> Result<isize, AllocError> {
        Ok(*self)
    }
}
